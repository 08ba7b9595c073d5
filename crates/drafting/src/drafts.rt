// What the words of a text say: a draft of the run, one word more at a time, or what was expected in the word's place.
ghost use Rattle.std.specs.Prelude.{◌≡◌};
ghost use Rattle.drafting.specs.Draft.{said, keyword, with_call, took_start, took_count, took_station, took_kind, took_first, took_second, took_turn, took_at, made_call, ended_at, lacking_at};
ghost use Rattle.drafting.specs.Expected.{expected_number};
ghost use Rattle.drafting.specs.declared.Stage.TheVariants.{First};
ghost use Rattle.drafting.specs.Held.{drafted, Drafts, Lacks};

use crate::words::{from1_to, is, value};
use crate::{Draft, Expected, Stage};
use runfile::CallRecord;

pub(crate) const MOST_CALLS: usize = rules::CALLS as usize;

pub(crate) const MOST_TURNS: usize = rules::TURNS as usize;

impl Draft {
    fn keyword(self, there: bool, stage: Stage, expected: Expected) -> Result<Draft, Expected>
        ensures { Drafts result (keyword (drafted self) there stage (expected_number expected)) }
    {
        if there {
            return Ok(Draft { stage, ..self });
        }
        Err(expected)
    }

    #[tactic(auto, unfolding(crate::specs::Draft::took_start))]
    fn took_start(self, w: &[u8]) -> Result<Draft, Expected>
        ensures { Drafts result (took_start (drafted self) (said w.now)) }
    {
        let x = value(w)?;
        Ok(Draft {
            stage: Stage::AfterStart,
            x,
            ..self
        })
    }

    #[tactic(auto, unfolding(crate::specs::Draft::took_count))]
    fn took_count(self, w: &[u8]) -> Result<Draft, Expected>
        ensures { Drafts result (took_count (drafted self) (said w.now)) }
    {
        let n = from1_to(rules::STATIONS, w, Expected::StationCount)?;
        Ok(Draft {
            stage: Stage::AfterCount,
            n,
            ..self
        })
    }

    #[tactic(auto, unfolding(crate::specs::Draft::took_station))]
    fn took_station(self, w: &[u8]) -> Result<Draft, Expected>
        ensures { Drafts result (took_station (drafted self) (said w.now)) }
    {
        if is(w, b"turns") {
            return Ok(Draft {
                stage: Stage::Turn,
                ..self
            });
        }
        let station = from1_to(self.n, w, Expected::StationOrTurns)?;
        Ok(Draft {
            stage: Stage::Kind,
            call: CallRecord {
                station,
                ..CallRecord::default()
            },
            ..self
        })
    }

    // The call's kind is a number, as CallRecord has it.
    fn with_kind(self, kind: u32) -> Draft
        ensures { drafted result ≡ with_call (drafted self) First self.call.station kind 0 0 }
    {
        Draft {
            stage: Stage::First,
            call: CallRecord {
                station: self.call.station,
                kind,
                ..CallRecord::default()
            },
            ..self
        }
    }

    #[tactic(auto, unfolding(crate::specs::Draft::took_kind))]
    fn took_kind(self, w: &[u8]) -> Result<Draft, Expected>
        ensures { Drafts result (took_kind (drafted self) (said w.now)) }
    {
        if is(w, b"read") {
            return Ok(Draft {
                stage: Stage::AfterCall,
                ..self
            });
        }
        if is(w, b"set") {
            return Ok(self.with_kind(1));
        }
        if is(w, b"swap") {
            return Ok(self.with_kind(2));
        }
        Err(Expected::Kind)
    }

    #[tactic(auto, unfolding(crate::specs::Draft::took_first))]
    fn took_first(self, w: &[u8]) -> Result<Draft, Expected>
        ensures { Drafts result (took_first (drafted self) (said w.now)) }
    {
        let a = value(w)?;
        Ok(Draft {
            stage: Stage::Second,
            call: CallRecord {
                a,
                b: 0,
                ..self.call
            },
            ..self
        })
    }

    #[tactic(auto, unfolding(crate::specs::Draft::took_second))]
    fn took_second(self, w: &[u8]) -> Result<Draft, Expected>
        ensures { Drafts result (took_second (drafted self) (said w.now)) }
    {
        let b = value(w)?;
        Ok(Draft {
            stage: Stage::AfterCall,
            call: CallRecord { b, ..self.call },
            ..self
        })
    }

    #[tactic(auto, unfolding(crate::specs::Draft::took_turn))]
    fn took_turn(self, w: &[u8]) -> Result<Draft, Expected>
        ensures { Drafts result (took_turn (drafted self) (said w.now)) }
    {
        if MOST_TURNS <= self.t {
            return Err(Expected::FewerTurns);
        }
        let station = from1_to(self.n, w, Expected::Station)?;
        Ok(Draft {
            stage: Stage::Turn,
            t: self.t + 1,
            call: CallRecord {
                station,
                ..CallRecord::default()
            },
            ..self
        })
    }

    // A word more.
    #[tactic(auto, unfolding(crate::specs::Draft::took_at))]
    pub(crate) fn took(self, w: &[u8]) -> Result<Draft, Expected>
        ensures { Drafts result (took_at self.stage (drafted self) (said w.now)) }
    {
        match self.stage {
            Stage::Start => self.keyword(is(w, b"start"), Stage::StartValue, Expected::Start),
            Stage::StartValue => self.took_start(w),
            Stage::Stations => self.keyword(is(w, b"stations"), Stage::Count, Expected::Stations),
            Stage::Count => self.took_count(w),
            Stage::Call => self.took_station(w),
            Stage::Kind => self.took_kind(w),
            Stage::First => self.took_first(w),
            Stage::Second => self.took_second(w),
            Stage::Turn => self.took_turn(w),
            Stage::AfterStart | Stage::AfterCount | Stage::AfterCall => Err(Expected::LineEnd),
        }
    }

    #[tactic(auto, unfolding(crate::specs::Draft::made_call))]
    fn made_call(self) -> Result<Draft, Expected>
        ensures { Drafts result (made_call (drafted self)) }
    {
        if MOST_CALLS <= self.q {
            return Err(Expected::FewerCalls);
        }
        Ok(Draft {
            stage: Stage::Call,
            q: self.q + 1,
            ..self
        })
    }

    // The line ends.
    #[tactic(auto, unfolding(crate::specs::Draft::ended_at))]
    pub(crate) fn ended(self) -> Result<Draft, Expected>
        ensures { Drafts result (ended_at self.stage (drafted self)) }
    {
        match self.stage {
            Stage::Start | Stage::Stations | Stage::Call | Stage::Turn => Ok(self),
            Stage::StartValue | Stage::First | Stage::Second => Err(Expected::Value),
            Stage::AfterStart => Ok(Draft {
                stage: Stage::Stations,
                ..self
            }),
            Stage::Count => Err(Expected::StationCount),
            Stage::AfterCount => Ok(Draft {
                stage: Stage::Call,
                ..self
            }),
            Stage::Kind => Err(Expected::Kind),
            Stage::AfterCall => self.made_call(),
        }
    }
}

// What the text lacks where it ends at this stage.
#[tactic(auto, unfolding(crate::specs::Draft::lacking_at))]
pub(crate) fn lacking_at(stage: Stage) -> Result<(), Expected>
    ensures { Lacks result (lacking_at stage) }
{
    match stage {
        Stage::Start => Err(Expected::Start),
        Stage::StartValue | Stage::First | Stage::Second => Err(Expected::Value),
        Stage::AfterStart | Stage::Stations => Err(Expected::Stations),
        Stage::Count => Err(Expected::StationCount),
        Stage::Kind => Err(Expected::Kind),
        Stage::AfterCount | Stage::Call | Stage::AfterCall | Stage::Turn => Ok(()),
    }
}
