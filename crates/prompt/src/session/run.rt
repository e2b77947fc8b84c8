// A whole session: a prompt is opened, calls are made, and each has its reply.
ghost use Rattle.std.specs.Prelude.{◌≡◌, map, take, drop, IfOk, OnErr};
ghost use Rattle.prompt.specs.Opening.{opening_refused, refusal_in};
ghost use Rattle.glass.specs.Calls.{Drew};
ghost use Rattle.glass.specs.Ties.{StaysTied};
ghost use Rattle.prompt.specs.Made.{calls_made, ChangedByCalls};
ghost use Rattle.prompt.specs.Runs.{Run, replied_to, SessionShowsTheDraft};
ghost use Rattle.prompt.specs.Requests.{request};
ghost use Rattle.prompt.specs.Session.{OneCall};

use super::{Call, Reply};
use crate::state::Prompt;
use glass::Glass;
use text::refusal::Refusal;

impl Prompt {
    /// Makes one call, whichever it is.
    pub fn perform<G: Glass>(&mut self, glass: &mut G, call: Call<'_>) -> Reply
        ensures one_call { OneCall G.Font.Font.columns G.Glass.row G.Glass.spare (request call.entry) self.old glass.old result self.new glass.new }
        ensures drew { Drew G.Font.Font.columns G.Glass.row G.Glass.spare (calls_made G.Font.Font.columns G.Glass.row G.Glass.spare (request call.entry) self.old glass.old) glass.old glass.new }
        ensures keeps { StaysTied (calls_made G.Font.Font.columns G.Glass.row G.Glass.spare (request call.entry) self.old glass.old) (G.Glass.tied glass.old) (G.Glass.tied glass.new) }
    {
        // A list of calls is data: a host records it, and replays it.
        match call {
            Call::Draw => self.draw(glass).map(|()| None),
            Call::Key(event) => self.key(glass, event).map(Some),
            Call::Paste(bytes) => self.paste(glass, bytes).map(Some),
            Call::Resize(width) => self.resize(glass, width).map(|()| None),
        }
    }

    /// Makes the calls in their order, as many as there are places for replies.
    fn perform_all<G: Glass>(&mut self, glass: &mut G, calls: &[Call<'_>], replies: &mut [Reply])
        ensures runs { Run G.Font.Font.columns G.Glass.row G.Glass.spare self.old glass.old (map request (take (replied_to calls.now replies.old) calls.now)) (take (replied_to calls.now replies.old) replies.new) self.new glass.new }
        ensures keeps { ChangedByCalls (G.Glass.tied glass.old) (G.Glass.tied glass.new) }
        ensures rest_kept { drop (replied_to calls.now replies.old) replies.new ≡ drop (replied_to calls.now replies.old) replies.old }
    {
        let count = calls.len().min(replies.len());
        // By an index: of `replies.iter_mut().zip(calls)` no proof knows what the loop wrote.
        for i in 0..count {
            replies[i] = self.perform(glass, calls[i]);
        }
    }
}

/// Opens a prompt, and makes the calls in their order, as many as there are places for replies.
pub fn run<G: Glass>(
    label: &[u8],
    history: &[u8],
    glass: &mut G,
    calls: &[Call<'_>],
    replies: &mut [Reply],
) -> Result<Prompt, Refusal>
    ensures refused_exactly { refusal_in result ≡ opening_refused label.now history.now }
    ensures unchanged_if_refused { OnErr result ((glass.new ≡ glass.old) × (replies.new ≡ replies.old)) }
    ensures row_shows_the_draft { IfOk result (λ q. SessionShowsTheDraft G.Font.Font.columns G.Glass.row G.Glass.spare label.now history.now (map request (take (replied_to calls.now replies.old) calls.now)) (take (replied_to calls.now replies.old) replies.new) glass.old q glass.new) }
    ensures keeps { ChangedByCalls (G.Glass.tied glass.old) (G.Glass.tied glass.new) }
    ensures rest_kept { drop (replied_to calls.now replies.old) replies.new ≡ drop (replied_to calls.now replies.old) replies.old }
{
    let mut prompt = Prompt::open(label, history)?;
    prompt.perform_all(glass, calls, replies);
    Ok(prompt)
}
