// The player's calls.
use crate::damage::Given;
use deck::{Played, Player};
use player::{clear_mark, go_to, mute, open, play, seek, set_free, set_mark};
use refusal::Refusal;

// An enum and no closures: a row of the damages tells which calls it is for, and a call's name is printed.
#[derive(Clone, Copy, PartialEq, Eq)]
pub(crate) enum Call {
    Open,
    Play,
    Seek,
    SetMark,
    SetFree,
    ClearMark,
    GoTo,
    Mute,
}

impl Call {
    pub(crate) fn name(self) -> &'static [u8] {
        match self {
            Call::Open => b"open",
            Call::Play => b"play",
            Call::Seek => b"seek",
            Call::SetMark => b"set_mark",
            Call::SetFree => b"set_free",
            Call::ClearMark => b"clear_mark",
            Call::GoTo => b"go_to",
            Call::Mute => b"mute",
        }
    }

    // What was played, if it was a play. The cycles to play are counted from 2,000, also where a record is damaged.
    pub(crate) fn make(
        self,
        p: &mut Player,
        g: Given,
        log: &[u8],
        memory: &mut [u8],
        out: &mut [i16],
    ) -> Result<Option<Played>, Refusal> {
        match self {
            Call::Play => return play(p, g.end.wrapping_sub(2000), log, out).map(Some),
            Call::Open => {
                let opened = open(log);
                *p = opened.player;
                opened.answer?;
            }
            Call::Seek => seek(p, g.end, log)?,
            Call::SetMark => set_mark(p, g.slot, log, memory)?,
            Call::SetFree => set_free(p, log, memory)?,
            Call::ClearMark => clear_mark(p, g.slot)?,
            Call::GoTo => go_to(p, g.slot, log, memory)?,
            Call::Mute => mute(p, g.bits)?,
        }
        Ok(None)
    }
}
