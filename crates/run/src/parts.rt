// Where the parts of the row start that a run is kept in (specs/Row): by call its own turns, its answer, the turn in which it ended and that of its point,
// then the list; these the rooms above read. After them, for the loop alone: by station the call that it made last, the V.seq that it waits for and the
// call that it makes next, and by call the one that comes after it. The parts stay parts of one row of numbers, and not fields of records: the caller lends
// the row whole, and the contract of `traced` (`TracedTo`) says what stands in OWN to LIST, place by place. There 0 is none: no call, no turn.
// LATEST, WAIT, HEAD and NEXT are zeros for `TracedTo`. They stay in the row as well: the contract asks 6,249 places of the caller, and one law (`written`)
// serves all parts, so 0 is none in them too.
pub const BY_CALL: usize = rules::CALLS as usize + 1;

const BY_STATION: usize = rules::STATIONS as usize + 1;

pub const OWN: usize = 0;

pub const RESULT: usize = OWN + BY_CALL;

pub const LAST: usize = RESULT + BY_CALL;

pub const POINT: usize = LAST + BY_CALL;

pub const LIST: usize = POINT + BY_CALL;

pub(crate) const LATEST: usize = LIST + BY_CALL;

pub(crate) const WAIT: usize = LATEST + BY_STATION;

pub(crate) const HEAD: usize = WAIT + BY_STATION;

pub(crate) const NEXT: usize = HEAD + BY_STATION;

// The places of the whole row.
pub const PLACES: usize = NEXT + BY_CALL;
