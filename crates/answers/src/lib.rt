// Answers of the public calls. A refusal names the question whose answer is no; the numbers are those of the questions at the door.
#![tactic(auto)]

ghost use Rattle.std.specs.Prelude.{◌≡◌, get_or};
ghost use Rattle.model.specs.Calls.{number_of, values_of, written_values, move_values};
ghost use Rattle.answers.specs.Answers.{question, answer_of, written_of, move_of};

// One case for each question, by its number, 1 to 30.
#[derive(Clone, Copy)]
pub enum Refusal {
    MemorySize = 1,
    NotAnImage,
    FileLayout,
    CoordinateNotFinite,
    LinksWrong,
    ThirdLinksWrong,
    LabelsWrong,
    PointsDisagree,
    Destination,
    SerialNotHeld,
    VolumeTooLarge,
    SewnWithin,
    VertexPairs,
    CounterFull,
    OutputTooShort,
    MessageLayout,
    NotForHere,
    SerialsNotNew,
    VolumeWrong,
    PartsWrong,
    BlockFull,
    UpdateWrong,
    BlockNumbers,
    SerialsRepeated,
    LabelsUnpaired,
    PointsAcross,
    MakersWrong,
    OracleWrong,
    VolumeForViewer,
    PagesTooLong,
}

// Of a call that adds nothing to its answer.
pub type Answer = Result<(), Refusal>;

// Of a call that adds the bytes written.
pub type Written = Result<usize, Refusal>;

// Of next move: donor, recipient and serial of a move.
#[derive(Clone, Copy)]
pub enum NextMove {
    Level,
    Blocked,
    Move(u32, u32, u64),
    Refused(Refusal),
}

pub fn refusal_number(r: Refusal) -> u32
    ensures { result ≡ question r }
{
    r as u32
}

pub fn answer_number(a: Answer) -> u32
    ensures { result ≡ number_of (answer_of a) }
{
    match a {
        Ok(()) => 0,
        Err(r) => refusal_number(r),
    }
}

pub fn written_number(w: Written) -> u32
    ensures { result ≡ number_of (written_of w) }
{
    match w {
        Ok(_) => 0,
        Err(r) => refusal_number(r),
    }
}

// The bytes written, 0 of a refused call.
pub fn written_bytes(w: Written) -> usize
    ensures { result ≡ get_or (values_of written_values (written_of w)) 0 0 }
{
    match w {
        Ok(n) => n,
        Err(_) => 0,
    }
}

pub fn move_number(m: NextMove) -> u32
    ensures { result ≡ number_of (move_of m) }
{
    match m {
        NextMove::Level => 0,
        NextMove::Blocked => 0,
        NextMove::Move(_, _, _) => 0,
        NextMove::Refused(r) => refusal_number(r),
    }
}

// 0 level, 1 blocked, 2 a move; 0 of a refused call.
pub fn move_kind(m: NextMove) -> u32
    ensures { result ≡ get_or (values_of move_values (move_of m)) 0 0 }
{
    match m {
        NextMove::Level => 0,
        NextMove::Blocked => 1,
        NextMove::Move(_, _, _) => 2,
        NextMove::Refused(_) => 0,
    }
}

pub fn move_donor(m: NextMove) -> u32
    ensures { result ≡ get_or (values_of move_values (move_of m)) 1 0 }
{
    match m {
        NextMove::Level => 0,
        NextMove::Blocked => 0,
        NextMove::Move(d, _, _) => d,
        NextMove::Refused(_) => 0,
    }
}

pub fn move_recipient(m: NextMove) -> u32
    ensures { result ≡ get_or (values_of move_values (move_of m)) 2 0 }
{
    match m {
        NextMove::Level => 0,
        NextMove::Blocked => 0,
        NextMove::Move(_, r, _) => r,
        NextMove::Refused(_) => 0,
    }
}

pub fn move_serial(m: NextMove) -> u64
    ensures { result ≡ get_or (values_of move_values (move_of m)) 3 0 }
{
    match m {
        NextMove::Level => 0,
        NextMove::Blocked => 0,
        NextMove::Move(_, _, s) => s,
        NextMove::Refused(_) => 0,
    }
}
