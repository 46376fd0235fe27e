// How each answer crosses to C: a struct by value whose first field is the refusal number, 0 for an answer, made of what a call answers. In
// a refusal every other field is 0, but for the clock's state. It sees the answers of all calls and makes no call; the exported
// functions are the crate canceller.
#![tactic(auto)]

ghost use Rattle.std.specs.Prelude.{◌≡◌};
ghost use Rattle.elimination.specs.Elimination.{said as said_eliminated};
ghost use Rattle.register.specs.Clock.{said as said_clocked};
ghost use Rattle.set_file.specs.Reading.{said as said_set, words_beside};
ghost use Rattle.slice_rows.specs.Rows.{said_place};
ghost use Rattle.columns.specs.Listing.{said_listed};
ghost use Rattle.signing.specs.Signing.{said_signed};
ghost use Rattle.plan_file.specs.Reading.{said as said_read};
ghost use Rattle.plan_writer.specs.Writing.{said as said_written};
ghost use Rattle.expectation.specs.Expecting.{said_expected};
ghost use Rattle.cutter.specs.Cutting.{said_cut};
ghost use Rattle.planner.specs.Planning.{said_worded, said as said_planned};
ghost use Rattle.judge.specs.Verdict.{said as said_judged};
ghost use Rattle.crossing.specs.Boundary.{set_of, stretch_of, written_of, clocked_of, signed_of, listed_of, eliminated_of, worded_of, expected_to, planned_of, read_of, cutting_of, judged_of};

use cutter::Cutting;
use elimination::Eliminated;
use judge::{Judgment, Verdict};
use plan_file::PlanHead;
use planner::{Planned, Words};
use refusals::Refusal;
use register::Register;
use set_file::Taken;
use slice_rows::Place;

#[repr(C)]
#[derive(Drop)]
pub struct CSet {
    pub refusal: u64,
    pub m: u64,
    pub taps: u64,
    pub inversion: u64,
    pub n: u64,
    pub s: u64,
    pub spread: [u64; 256],
}

#[repr(C)]
#[derive(Drop)]
pub struct CStretch {
    pub refusal: u64,
    pub start: u64,
    pub length: u64,
}

#[repr(C)]
#[derive(Drop)]
pub struct CWritten {
    pub refusal: u64,
    pub length: u64,
}

#[repr(C)]
#[derive(Drop)]
pub struct CClocked {
    pub refusal: u64,
    pub state: u64,
}

#[repr(C)]
#[derive(Drop)]
pub struct CSigned {
    pub refusal: u64,
    pub signature: u64,
}

#[repr(C)]
#[derive(Drop)]
pub struct CListed {
    pub refusal: u64,
    pub count: u64,
}

#[repr(C)]
#[derive(Drop)]
pub struct CEliminated {
    pub refusal: u64,
    pub rank: u64,
    pub q: u64,
}

#[repr(C)]
#[derive(Drop)]
pub struct CWorded {
    pub refusal: u64,
    pub m: u64,
    pub q: u64,
}

#[repr(C)]
#[derive(Drop)]
pub struct CExpected {
    pub refusal: u64,
    pub expected: u64,
}

#[repr(C)]
#[derive(Drop)]
pub struct CPlanned {
    pub refusal: u64,
    pub m: u64,
    pub q: u64,
    pub expected: u64,
}

#[repr(C)]
#[derive(Drop)]
pub struct CCutting {
    pub refusal: u64,
    pub runs: u64,
    pub bits: u64,
}

#[repr(C)]
#[derive(Drop)]
pub struct CJudged {
    pub refusal: u64,
    pub cancelled: u64,
    pub failed: u64,
    pub index: u64,
}

// The set reader's answer, with the 256 spread words beside it, all zero in a refusal.
impl From<Result<Taken, Refusal>> for CSet {
    ghost from_gives = { λ read c. c ≡ set_of (said_set read) (words_beside read) };

    fn from(read: Result<Taken, Refusal>) -> CSet {
        match read {
            Ok(taken) => {
                let register = taken.register;
                let spread = taken.spread;
                CSet {
                    refusal: 0,
                    m: register.m,
                    taps: register.taps,
                    inversion: register.inversion,
                    n: taken.n as u64,
                    s: taken.s as u64,
                    spread,
                }
            }
            Err(refusal) => CSet {
                refusal: refusal.number(),
                m: 0,
                taps: 0,
                inversion: 0,
                n: 0,
                s: 0,
                spread: [0; 256],
            },
        }
    }
}

// Where a row stands in the caller's set.
impl From<Result<Place, Refusal>> for CStretch {
    ghost from_gives = { λ found c. c ≡ stretch_of (said_place found) };

    fn from(found: Result<Place, Refusal>) -> CStretch {
        match found {
            Ok(place) => CStretch {
                refusal: 0,
                start: place.start as u64,
                length: place.bytes as u64,
            },
            Err(refusal) => CStretch {
                refusal: refusal.number(),
                start: 0,
                length: 0,
            },
        }
    }
}

// The length of the file that a writer wrote, the set writer or the plan writer.
impl From<Result<usize, Refusal>> for CWritten {
    ghost from_gives = { λ written c. c ≡ written_of (said_written written) };

    fn from(written: Result<usize, Refusal>) -> CWritten {
        match written {
            Ok(length) => CWritten {
                refusal: 0,
                length: length as u64,
            },
            Err(refusal) => CWritten {
                refusal: refusal.number(),
                length: 0,
            },
        }
    }
}

// The clock's answer: the successor's state, or in a refusal the state that was handed in. No plainer as a `From`: that state comes beside the answer.
pub fn clocked_of(clocked: Result<Register, Refusal>, state: u64) -> CClocked
    ensures { result ≡ clocked_of (said_clocked clocked) state }
{
    match clocked {
        Ok(next) => CClocked {
            refusal: 0,
            state: next.state,
        },
        Err(refusal) => CClocked {
            refusal: refusal.number(),
            state,
        },
    }
}

// A record's signature.
impl From<Result<u64, Refusal>> for CSigned {
    ghost from_gives = { λ signed c. c ≡ signed_of (said_signed signed) };

    fn from(signed: Result<u64, Refusal>) -> CSigned {
        match signed {
            Ok(signature) => CSigned {
                refusal: 0,
                signature,
            },
            Err(refusal) => CSigned {
                refusal: refusal.number(),
                signature: 0,
            },
        }
    }
}

// How many columns were listed.
impl From<Result<u64, Refusal>> for CListed {
    ghost from_gives = { λ listed c. c ≡ listed_of (said_listed listed) };

    fn from(listed: Result<u64, Refusal>) -> CListed {
        match listed {
            Ok(count) => CListed { refusal: 0, count },
            Err(refusal) => CListed {
                refusal: refusal.number(),
                count: 0,
            },
        }
    }
}

// The rank and q.
impl From<Result<Eliminated, Refusal>> for CEliminated {
    ghost from_gives = { λ eliminated c. c ≡ eliminated_of (said_eliminated eliminated) };

    fn from(eliminated: Result<Eliminated, Refusal>) -> CEliminated {
        match eliminated {
            Ok(answer) => CEliminated {
                refusal: 0,
                rank: answer.rank,
                q: answer.q,
            },
            Err(refusal) => CEliminated {
                refusal: refusal.number(),
                rank: 0,
                q: 0,
            },
        }
    }
}

// m and q of the call that gives the words.
impl From<Result<Words, Refusal>> for CWorded {
    ghost from_gives = { λ worded c. c ≡ worded_of (said_worded worded) };

    fn from(worded: Result<Words, Refusal>) -> CWorded {
        match worded {
            Ok(words) => CWorded {
                refusal: 0,
                m: words.m,
                q: words.q,
            },
            Err(refusal) => CWorded {
                refusal: refusal.number(),
                m: 0,
                q: 0,
            },
        }
    }
}

// The expected bits of a list of words.
impl From<Result<u64, Refusal>> for CExpected {
    ghost from_gives = { λ bits c. c ≡ expected_to (said_expected bits) };

    fn from(bits: Result<u64, Refusal>) -> CExpected {
        match bits {
            Ok(expected) => CExpected {
                refusal: 0,
                expected,
            },
            Err(refusal) => CExpected {
                refusal: refusal.number(),
                expected: 0,
            },
        }
    }
}

// Planning's answer.
impl From<Result<Planned, Refusal>> for CPlanned {
    ghost from_gives = { λ planned c. c ≡ planned_of (said_planned planned) };

    fn from(planned: Result<Planned, Refusal>) -> CPlanned {
        match planned {
            Ok(plan) => CPlanned {
                refusal: 0,
                m: plan.m,
                q: plan.q,
                expected: plan.expected,
            },
            Err(refusal) => CPlanned {
                refusal: refusal.number(),
                m: 0,
                q: 0,
                expected: 0,
            },
        }
    }
}

// The plan reader's answer, in the same struct as planning's.
impl From<Result<PlanHead, Refusal>> for CPlanned {
    ghost from_gives = { λ read c. c ≡ read_of (said_read read) };

    fn from(read: Result<PlanHead, Refusal>) -> CPlanned {
        CPlanned::from(read.map(|head| Planned {
            m: head.m,
            q: head.q,
            expected: head.expected,
        }))
    }
}

// Cutting's answer.
impl From<Result<Cutting, Refusal>> for CCutting {
    ghost from_gives = { λ cut c. c ≡ cutting_of (said_cut cut) };

    fn from(cut: Result<Cutting, Refusal>) -> CCutting {
        match cut {
            Ok(cutting) => CCutting {
                refusal: 0,
                runs: cutting.runs,
                bits: cutting.bits,
            },
            Err(refusal) => CCutting {
                refusal: refusal.number(),
                runs: 0,
                bits: 0,
            },
        }
    }
}

// The cancelled bits and the verdict.
impl From<Result<Judgment, Refusal>> for CJudged {
    ghost from_gives = { λ judged c. c ≡ judged_of (said_judged judged) };

    fn from(judged: Result<Judgment, Refusal>) -> CJudged {
        match judged {
            Ok(judgment) => {
                let cancelled = judgment.cancelled;
                match judgment.verdict {
                    Verdict::Passes => CJudged {
                        refusal: 0,
                        cancelled,
                        failed: 0,
                        index: 0,
                    },
                    Verdict::Fails { index } => CJudged {
                        refusal: 0,
                        cancelled,
                        failed: 1,
                        index,
                    },
                }
            }
            Err(refusal) => CJudged {
                refusal: refusal.number(),
                cancelled: 0,
                failed: 0,
                index: 0,
            },
        }
    }
}
