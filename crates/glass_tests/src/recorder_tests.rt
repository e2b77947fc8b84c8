// The recorder on examples.
use crate::Trial;
use glass::calls::Call;
use glass::{Glass, PenChange};
use mirror::draw_both;
use recorder::recorder::Recorder;
use recorder::recorder::making::can_record;
use std::test::Fail;
use text::refusal::Refusal;

const LETTER: u32 = 0x61;

#[test]
fn making_asked_first(rt: HostRuntime) {
    assert_eq!(rt; can_record(0, 5), Err(Refusal::OutsideGlass));
    assert_eq!(rt; can_record(513, 70000), Err(Refusal::OutsideGlass));
    assert_eq!(rt; can_record(40, 5), Err(Refusal::BufferTooShort));
    assert_eq!(rt; can_record(40, 6), Ok(()));
}

#[test]
fn made_regardless(rt: HostRuntime) {
    let mut buffer = [7u8; 5];
    let mut recorder: Recorder<Trial> = Recorder::new(0, 40, &mut buffer);
    assert_eq!(rt; recorder.width(), 1);
    assert_eq!(rt; recorder.spare_left(), 0);
    assert_eq!(rt; recorder.place(1), Err(Refusal::OutsideGlass));
    assert_eq!(rt; recorder.place(0), Err(Refusal::LowSpare));
    assert_eq!(rt; recorder.finish(), 0);
    assert_eq!(rt; &buffer[0..5], &[7, 7, 7, 7, 7][0..5]);
}

#[test]
fn six_and_thirteen_bytes(rt: HostRuntime) -> Result<(), Fail> {
    let mut six = [0u8; 6];
    let mut recorder: Recorder<Trial> = Recorder::new(0, 40, &mut six);
    assert_eq!(rt; recorder.width(), 40);
    assert_eq!(rt; recorder.spare_left(), 0);
    assert_eq!(rt; recorder.clear(), Err(Refusal::LowSpare));
    assert_eq!(rt; recorder.bytes_so_far(), &[1, 0, 3, 5, 0, 0x28][0..6]);
    let mut thirteen = [0u8; 13];
    let mut recorder: Recorder<Trial> = Recorder::new(0, 40, &mut thirteen);
    assert_eq!(rt; recorder.spare_left(), 0);
    assert_eq!(rt; recorder.place(0), Err(Refusal::LowSpare));
    let mut fourteen = [0u8; 14];
    let mut recorder: Recorder<Trial> = Recorder::new(0, 40, &mut fourteen);
    assert_eq!(rt; recorder.spare_left(), 1);
    assert_eq!(rt; recorder.text(&[LETTER]), Err(Refusal::LowSpare));
    recorder.place(0)?;
    assert_eq!(rt; recorder.finish(), 13);
    Ok(())
}

#[test]
fn worked_record(rt: HostRuntime) -> Result<(), Fail> {
    let mut buffer = [0u8; 64];
    let mut recorder: Recorder<Trial> = Recorder::new(0x102, 40, &mut buffer);
    recorder.text(&[LETTER])?;
    assert_eq!(rt;
        recorder.bytes_so_far(),
        &[1, 0, 3, 5, 0, 0x28, 0, 2, 3, 0x61][0..10]
    );
    recorder.place(3)?;
    recorder.pen(PenChange::ReverseOff)?;
    recorder.clear()?;
    recorder.reshape(300)?;
    let whole = [
        1, 0, 3, 5, 0, 0x28, 0, 2, 3, 0x61, 0, 5, 1, 1, 2, 0, 3, 0, 2, 2, 3, 0, 1, 4, 0, 3, 5, 1,
        0x2C,
    ];
    assert_eq!(rt; recorder.bytes_so_far(), &whole[0..29]);
    Ok(())
}

#[test]
fn big_buffers(rt: HostRuntime) -> Result<(), Fail> {
    let mut exact = vec![in rt.alloc(); 0u8; 65536]?;
    let recorder: Recorder<Trial> = Recorder::new(0, 512, &mut exact);
    assert_eq!(rt; recorder.spare_left(), 8191);
    let mut more = vec![in rt.alloc(); 0u8; 70000]?;
    let mut recorder: Recorder<Trial> = Recorder::new(0, 512, &mut more);
    assert_eq!(rt; recorder.spare_left(), 8191);
    assert_eq!(rt; recorder.text(&[LETTER; 8191]), Err(Refusal::LowSpare));
    recorder.text(&[0x1F600; 8190])?;
    assert_eq!(rt; recorder.finish(), 6 + 3 + 4 * 8190);
    Ok(())
}

#[test]
fn same_calls_on_both(rt: HostRuntime) -> Result<(), Fail> {
    let mut buffer = [0u8; 128];
    let calls = [
        Call::Place(2),
        Call::Pen(PenChange::Prompt),
        Call::Text(&[LETTER, 0x3042, 0x301]),
        Call::Clear,
    ];
    let both = draw_both::<Trial>(3, 40, &calls, &mut buffer)?;
    assert!(rt; both.drawn.is_ok());
    assert!(rt; both.recorded.is_ok());
    assert_eq!(rt; both.cells.cursor(), 5);
    assert_eq!(rt; both.used, 6 + 7 + 4 + 9 + 3);
    Ok(())
}
