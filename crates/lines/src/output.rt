// Answers, as text: words and numbers, each behind a blank.
use completion_answers::many::MANY_STATUSES;
use model::buffer::{MANY_WORDS, RINGS_BYTES, TURN_EXTENTS, TURN_EXTENTS_END, TURN_WORDS};
use model::limit::EXTENT_WORDS;
use model::{Completed, CompletedMany, Counters, Plan, Refusal, Status, Turned};
use std::fmt;

// What a call answers, or a part of it.
#[derive(Clone, Copy)]
pub struct Text<T>(pub T);

// A word that stands only where it is so.
fn mark(is_so: bool, word: &str) -> &str {
    if is_so { word } else { "" }
}

impl<T: Copy> fmt::Display for Text<Result<T, Refusal>>
where
    Text<T>: fmt::Display,
{
    fn fmt<W: fmt::Write>(&self, f: &mut fmt::Formatter<W>) -> fmt::Result {
        match self.0 {
            Ok(answer) => Text(answer).fmt(f),
            Err(refusal) => Text(refusal).fmt(f),
        }
    }
}

impl fmt::Display for Text<Refusal> {
    fn fmt<W: fmt::Write>(&self, f: &mut fmt::Formatter<W>) -> fmt::Result {
        write!(f, " refused {}", u32::from(self.0))
    }
}

// The answer of open and close.
impl fmt::Display for Text<()> {
    fn fmt<W: fmt::Write>(&self, f: &mut fmt::Formatter<W>) -> fmt::Result {
        write!(f, " done")
    }
}

impl fmt::Display for Text<Status> {
    fn fmt<W: fmt::Write>(&self, f: &mut fmt::Formatter<W>) -> fmt::Result {
        write!(f, " status {}", i16::from(self.0))
    }
}

impl fmt::Display for Text<Plan> {
    fn fmt<W: fmt::Write>(&self, f: &mut fmt::Formatter<W>) -> fmt::Result {
        let plan = self.0;
        let secure = mark(plan.secure, " secure");
        write!(
            f,
            " operation {} start {} count {}{secure} extents {}",
            plan.operation, plan.start, plan.count, plan.extents
        )
    }
}

impl fmt::Display for Text<Turned> {
    fn fmt<W: fmt::Write>(&self, f: &mut fmt::Formatter<W>) -> fmt::Result {
        match self.0 {
            Turned::Idle => write!(f, " idle"),
            Turned::Overrun(port) => write!(f, " overrun port {}", port.0),
            Turned::Started(port, tag, serial, plan) => {
                let plan = Text(plan);
                write!(
                    f,
                    " started port {} tag {} serial {}{plan}",
                    port.0, tag.0, serial.0
                )
            }
            Turned::Answered(port, fault, notify) => {
                let reason = u32::from(fault.reason);
                let status = Text(fault.status);
                let notify = mark(notify, " notify");
                write!(
                    f,
                    " answered port {} reason {reason}{status}{notify}",
                    port.0
                )
            }
        }
    }
}

// The answer of a completion.
impl fmt::Display for Text<Completed> {
    fn fmt<W: fmt::Write>(&self, f: &mut fmt::Formatter<W>) -> fmt::Result {
        let done = self.0;
        let status = Text(done.status);
        let notify = mark(done.notify, " notify");
        write!(f, " done port {}{status}{notify}", done.port.0)
    }
}

// The four numbers.
impl fmt::Display for Text<Counters> {
    fn fmt<W: fmt::Write>(&self, f: &mut fmt::Formatter<W>) -> fmt::Result {
        let counters = self.0;
        write!(
            f,
            " {} {} {} {}",
            counters.taken, counters.okay, counters.error, counters.unsupported
        )
    }
}

// The answer of a turn, with the words that it leaves.
#[derive(Clone, Copy)]
pub struct TurnAnswer<'a> {
    pub turned: Result<Turned, Refusal>,
    pub words: &'a [u64; TURN_WORDS],
}

// The words of the extents stand behind a bar each, and with them those of unused places where one is not zero.
// A refused turn leaves the words as they were, and shows none.
impl fmt::Display for TurnAnswer<'_> {
    fn fmt<W: fmt::Write>(&self, f: &mut fmt::Formatter<W>) -> fmt::Result {
        let TurnAnswer { turned, words } = *self;
        Text(turned).fmt(f)?;
        let count = match turned {
            Ok(Turned::Started(.., plan)) => plan.extents,
            Ok(_) => 0,
            Err(_) => return Ok(()),
        };
        let extents = &words[TURN_EXTENTS..TURN_EXTENTS_END];
        for (i, word) in extents.iter().enumerate() {
            let is_used = ((i / EXTENT_WORDS) as u64) < count;
            if is_used || *word != 0 {
                let bar = mark(i % EXTENT_WORDS == 0, " |");
                write!(f, "{bar} {word}")?;
            }
        }
        Ok(())
    }
}

// The answer to a list of so many completions, with the words that it leaves.
#[derive(Clone, Copy)]
pub struct ListAnswer<'a> {
    pub completed: Result<CompletedMany, Refusal>,
    pub words: &'a [u64; MANY_WORDS],
    pub count: usize,
}

// A status stands as its word, without the sign. One that no entry has shows only where it is not zero.
impl fmt::Display for ListAnswer<'_> {
    fn fmt<W: fmt::Write>(&self, f: &mut fmt::Formatter<W>) -> fmt::Result {
        let ListAnswer {
            completed,
            words,
            count,
        } = *self;
        let done = match completed {
            Ok(done) => done,
            Err(refusal) => return Text(refusal).fmt(f),
        };
        write!(f, " done")?;
        for (i, status) in words[MANY_STATUSES..].iter().enumerate() {
            if *status != 0 {
                write!(f, " -{status}")?;
            } else if i < count {
                write!(f, " 0")?;
            }
        }
        write!(f, "{}", mark(done.notify, " notify"))
    }
}

// The ring bytes that a call changed.
#[derive(Clone, Copy)]
pub struct Changes<'a> {
    pub before: &'a [u8; RINGS_BYTES],
    pub after: &'a [u8; RINGS_BYTES],
}

// So many bytes are looked at in one step, where none of them has changed.
const STEP: usize = 64;

// Whether any byte has changed. All are looked at: of a test with no branch the compiler makes a few vector
// instructions.
fn differ(before: &[u8; STEP], after: &[u8; STEP]) -> bool {
    before
        .iter()
        .zip(after)
        .fold(false, |differ, (old, new)| differ | (old != new))
}

impl fmt::Display for Changes<'_> {
    fn fmt<W: fmt::Write>(&self, f: &mut fmt::Formatter<W>) -> fmt::Result {
        let Changes { before, after } = *self;
        let (befores, _) = before.as_chunks::<STEP>();
        let (afters, _) = after.as_chunks::<STEP>();
        for (step, (before, after)) in befores.iter().zip(afters).enumerate() {
            if differ(before, after) {
                for (i, (old, new)) in before.iter().zip(after).enumerate() {
                    if old != new {
                        write!(f, " {}:{new}", STEP * step + i)?;
                    }
                }
            }
        }
        Ok(())
    }
}
