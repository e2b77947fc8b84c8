// Keys, and what each of them asks for.
ghost use Rattle.std.specs.Prelude.{◌≡◌};
ghost use Rattle.prompt.specs.Keys.{operation, ctrl_character, alt_character, remove_to, go_to};

/// The modifiers that are held with a key. Any other choice of them asks for nothing.
#[derive(Clone, Copy, PartialEq, Eq, Debug)]
pub enum Modifiers {
    None,
    Ctrl,
    Alt,
    Other,
}

/// A key.
#[derive(Clone, Copy, PartialEq, Eq, Debug)]
pub enum KeyCode {
    /// A character key, with the code of its character.
    Char(u32),
    Enter,
    Escape,
    Backspace,
    Delete,
    Left,
    Right,
    Up,
    Down,
    Home,
    End,
    Other,
}

/// A key that is pressed, and what is held with it.
#[derive(Clone, Copy, PartialEq, Eq, Debug)]
pub struct KeyEvent {
    pub key: KeyCode,
    pub modifiers: Modifiers,
}

/// What a removal takes away, from the place on or up to it.
#[derive(Clone, Copy, PartialEq, Eq, Debug)]
pub enum Removal {
    PrevChar,
    NextChar,
    PrevWord,
    NextWord,
    ToStart,
    ToEnd,
}

/// Where the place goes.
#[derive(Clone, Copy, PartialEq, Eq, Debug)]
pub enum Motion {
    Left,
    Right,
    PrevWord,
    NextWord,
    Start,
    End,
}

/// An edit of the draft in hand.
#[derive(Clone, Copy, PartialEq, Eq, Debug)]
pub enum Edit {
    /// The character comes in at the place.
    Insert(u32),
    Remove(Removal),
    Move(Motion),
    Transpose,
}

/// What a key asks for.
#[derive(Clone, Copy, PartialEq, Eq, Debug)]
pub enum Operation {
    Finish,
    Cancel,
    Edit(Edit),
    /// The draft before comes in hand.
    Previous,
    /// The draft after comes in hand.
    Next,
    Ignore,
}

fn remove(removal: Removal) -> Operation
    ensures value { result ≡ remove_to removal }
{
    Operation::Edit(Edit::Remove(removal))
}

fn go(motion: Motion) -> Operation
    ensures value { result ≡ go_to motion }
{
    Operation::Edit(Edit::Move(motion))
}

/// Ctrl and a character.
fn with_ctrl(code: u32) -> Operation
    ensures value { result ≡ ctrl_character code }
{
    match char::from_u32(code) {
        Some('j' | 'm') => Operation::Finish,
        Some('c') => Operation::Cancel,
        Some('h') => remove(Removal::PrevChar),
        Some('d') => remove(Removal::NextChar),
        Some('w') => remove(Removal::PrevWord),
        Some('f') => go(Motion::Right),
        Some('b') => go(Motion::Left),
        Some('k') => remove(Removal::ToEnd),
        Some('u') => remove(Removal::ToStart),
        Some('e') => go(Motion::End),
        Some('a') => go(Motion::Start),
        Some('t') => Operation::Edit(Edit::Transpose),
        _ => Operation::Ignore,
    }
}

/// Alt and a character.
fn with_alt(code: u32) -> Operation
    ensures value { result ≡ alt_character code }
{
    match char::from_u32(code) {
        Some('d') => remove(Removal::NextWord),
        Some('f') => go(Motion::NextWord),
        Some('b') => go(Motion::PrevWord),
        _ => Operation::Ignore,
    }
}

/// What a key asks for.
pub fn operation_of(event: KeyEvent) -> Operation
    ensures value { result ≡ operation event }
{
    match (event.modifiers, event.key) {
        (Modifiers::None, KeyCode::Char(code)) => Operation::Edit(Edit::Insert(code)),
        (Modifiers::None, KeyCode::Enter) => Operation::Finish,
        (Modifiers::None, KeyCode::Escape) => Operation::Cancel,
        (Modifiers::None, KeyCode::Backspace) => remove(Removal::PrevChar),
        (Modifiers::None, KeyCode::Delete) => remove(Removal::NextChar),
        (Modifiers::None, KeyCode::Left) => go(Motion::Left),
        (Modifiers::None, KeyCode::Right) => go(Motion::Right),
        (Modifiers::None, KeyCode::Up) => Operation::Previous,
        (Modifiers::None, KeyCode::Down) => Operation::Next,
        (Modifiers::None, KeyCode::Home) => go(Motion::Start),
        (Modifiers::None, KeyCode::End) => go(Motion::End),
        (Modifiers::Ctrl, KeyCode::Char(code)) => with_ctrl(code),
        (Modifiers::Ctrl, KeyCode::Left) => go(Motion::PrevWord),
        (Modifiers::Ctrl, KeyCode::Right) => go(Motion::NextWord),
        (Modifiers::Alt, KeyCode::Char(code)) => with_alt(code),
        (Modifiers::Alt, KeyCode::Backspace) => remove(Removal::PrevWord),
        _ => Operation::Ignore,
    }
}
