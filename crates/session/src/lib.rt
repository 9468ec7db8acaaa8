// A session: a flowsheet and its plan, opened empty or from an image, and kept true under edits. It leans on what reading and the planner promise,
// and on nothing else of theirs.
#![tactic(auto)]

ghost use Rattle.std.specs.Prelude.{◌≡◌, ◌≤◌, [], length};
ghost use Rattle.flowsheet.specs.Sheet.{sheet_of};
ghost use Rattle.planner.specs.Answer.{Spent, code_of as planner_code};
ghost use Rattle.session.specs.Answer.{number_of, code_of, made, made_of, opened, opened_of, Opening, Editing};
ghost use Rattle.session.specs.Session.{is_held, session_of};
ghost use Rattle.session.specs.declared.Refusal.TheVariants.{Sheet};
ghost use Rattle.session.specs.declared.Session.{Session};

mod edits;

use flowsheet::{Flowsheet, Stream};
use planner::Plan;

// A flowsheet, and the plan that the rules fix for it. The fields are open, so a host can hand in one that no calls could have left: every edit
// asks.
#[derive(Clone, Copy, PartialEq)]
pub struct Session {
    pub sheet: Flowsheet,
    pub plan: Plan,
}

// An edit of the flowsheet. Units and streams go by their numbers.
#[derive(Clone, Copy, Debug, PartialEq, Eq)]
pub enum Edit {
    AddUnit(u16),
    RemoveUnit(u16),
    AddStream(Stream),
    RemoveStream(u16),
    SetWeight { stream: u16, weight: u16 },
}

// Why an edit is refused.
#[derive(Clone, Copy, Debug, PartialEq, Eq)]
pub enum Refusal {
    // 8 to 10: what reading too refuses a stream for, an end or the weight.
    Sheet(flowsheet::Refusal),
    // 11: a block over 12 units, add stream.
    LargeBlock,
    // 12: working memory under 65,536 bytes.
    ShortMemory,
    // 20: number not 1 to 9,999.
    Number,
    // 21: number already held.
    Held,
    // 22: 64 units held (add unit) or 256 streams (add stream).
    Full,
    // 23: no such unit or stream.
    NotHeld,
    // 24: unit still has a stream.
    InUse,
    // 25: a block over 12 units after the edit, remove stream and weight.
    LargeAfter,
    // 26: a session that no calls could have left.
    NoSession,
}

impl From<flowsheet::Refusal> for Refusal {
    ghost from_gives = { λ refusal r. r ≡ Sheet refusal };

    fn from(refusal: flowsheet::Refusal) -> Refusal {
        Self::Sheet(refusal)
    }
}

impl From<Refusal> for u32 {
    ghost from_gives = { λ refusal number. number ≡ number_of refusal };

    fn from(refusal: Refusal) -> u32 {
        match refusal {
            Refusal::Sheet(refusal) => u32::from(refusal),
            Refusal::LargeBlock => 11,
            Refusal::ShortMemory => 12,
            Refusal::Number => 20,
            Refusal::Held => 21,
            Refusal::Full => 22,
            Refusal::NotHeld => 23,
            Refusal::InUse => 24,
            Refusal::LargeAfter => 25,
            Refusal::NoSession => 26,
        }
    }
}

// Opens an image: its session, or what planning refuses it with. It leaves the memory uncleared.
fn opened(image: &[u8], work: &mut [u8]) -> Result<Session, planner::Refusal>
    ensures answer { (old : Session) → opened old result ≡ opened_of old image.now (length work.old) }
    ensures work { Spent work.old work.new }
{
    let sheet = flowsheet::read(image)?;
    let plan = planner::plan_of(&sheet, work)?;
    Ok(Session { sheet, plan })
}

impl Session {
    // A session of no units and no streams.
    pub fn empty() -> Session
        ensures { result ≡ session_of (sheet_of [] []) }
    {
        Session {
            sheet: flowsheet::empty(),
            plan: planner::no_plan(),
        }
    }

    // Opens an image: its session replaces this one. Refuses as planning on the image does, without a plan buffer, and then this one stays. The
    // working memory is left as rule 5 says on every way out.
    pub fn open(&mut self, image: &[u8], work: &mut [u8]) -> Result<(), planner::Refusal>
        ensures { Opening self.old image.now work.old (planner_code result) self.new work.new }
    {
        let answer = opened(image, work);
        planner::clear_work(work);
        *self = answer?;
        Ok(())
    }

    // Whether calls could have left this session: its flowsheet would be accepted as an image, and its plan is the one that the rules fix for it.
    // (Beyond their counts its rows are blank by their type.)
    fn is_held(&self, work: &mut [u8]) -> bool
        requires { 65536 ≤ length work.old }
        ensures held { result ≡ is_held self.now }
        ensures work { Spent work.old work.new }
    {
        if !flowsheet::is_good(&self.sheet) {
            return false;
        }
        match planner::plan_of(&self.sheet, work) {
            Ok(plan) => self.plan == plan,
            Err(_) => false,
        }
    }

    // This session after an edit, or the first refusal that the table gives. It leaves the memory uncleared.
    fn edited(&self, edit: Edit, work: &mut [u8]) -> Result<Session, Refusal>
        ensures answer { made self.now result ≡ made_of edit self.now (length work.old) }
        ensures work { Spent work.old work.new }
    {
        if work.len() < 65536 {
            return Err(Refusal::ShortMemory);
        }
        if !self.is_held(work) {
            return Err(Refusal::NoSession);
        }
        let mut sheet = self.sheet;
        edits::edit(&mut sheet, edit)?;
        match planner::plan_of(&sheet, work) {
            Ok(plan) => Ok(Session { sheet, plan }),
            Err(_) => Err(edits::large(edit)),
        }
    }

    // Makes an edit, or refuses it with the first number of the table that holds, and then this session stays. The working memory is left as rule 5
    // says on every way out.
    pub fn edit(&mut self, edit: Edit, work: &mut [u8]) -> Result<(), Refusal>
        ensures { Editing edit self.old work.old (code_of result) self.new work.new }
    {
        let answer = self.edited(edit, work);
        planner::clear_work(work);
        *self = answer?;
        Ok(())
    }
}
