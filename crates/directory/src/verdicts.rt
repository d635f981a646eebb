// What the parse decides, in small values: a refusal, or a directory and at most three warnings. The page number plays no part but in a refusal.
ghost use Rattle.std.specs.Prelude.{◌≡◌, [], ◌+◌, ◌*◌, ◌<◌, ◌≤◌, Some, Ok, IfSome, IfOk, length, map, not, reverse, unwrap_or, option_map, ◌==◌};
ghost use Rattle.std.specs.List.{find};
ghost use Rattle.lists.specs.Pieces.{keep};
ghost use Rattle.slots.specs.Slots.{slot_value, scanned_directory};
ghost use Rattle.answers.specs.Settings.{directory};
ghost use Rattle.preludes.specs.declared.search.Prelude.TheVariants.{Missing};
ghost use Rattle.directory.specs.Directory.{slots_of, is_inside, first_of, last_live, Sound};
ghost use Rattle.directory.specs.Decisions.{refusal_of, taken, declared_at, scanned_as, few_of, reason_of, unconfirmed_of};
ghost use Rattle.directory.specs.Decisions.{many_of, found_of, inside_checked, decision_of, page_decision};

use answers::{Options, Reason, Refusal, WarningKind};
use preludes::{Prelude, prelude_candidates};
use slots::{Scan, pair_of, pairs_in, scanned_directory};

// Why no directory is listed: a refusal without the page's number.
#[derive(Clone, Copy)]
pub enum Unlisted {
    WrongLength(usize),
    LimitOutOfRange(usize),
    NoDirectory(Reason),
    NoPrelude,
    Truncated {
        found: usize,
        expected: usize,
        stop: usize,
    },
    Ambiguous,
    OffsetInside {
        offset: usize,
        end: usize,
    },
}

// Where the slots stand, how many they are, and the count that a prelude declares: the scan's directory has none.
#[derive(Clone, Copy)]
pub struct Listed {
    pub start: usize,
    pub count: usize,
    pub declared: Option<usize>,
}

// The directory, where there is one, and what is warned of, in this order.
#[derive(Clone, Copy)]
pub struct Decided {
    pub listed: Option<Listed>,
    pub first: Option<WarningKind>,
    pub second: Option<WarningKind>,
    pub third: Option<WarningKind>,
}

impl Unlisted {
    pub fn of_page(self, number: u64) -> Refusal
        ensures { result ≡ refusal_of number self }
    {
        match self {
            Unlisted::WrongLength(length) => Refusal::WrongPageLength(length),
            Unlisted::LimitOutOfRange(limit) => Refusal::LimitOutOfRange(limit),
            Unlisted::NoDirectory(reason) => Refusal::NoSlotDirectory {
                page: number,
                reason,
            },
            Unlisted::NoPrelude => Refusal::UnknownPrelude(number),
            Unlisted::Truncated {
                found,
                expected,
                stop,
            } => Refusal::SlotDirectoryTruncated {
                page: number,
                found,
                expected,
                stop,
            },
            Unlisted::Ambiguous => Refusal::AmbiguousSlotDirectory(number),
            Unlisted::OffsetInside { offset, end } => {
                Refusal::SlotOffsetInDirectory {
                    page: number,
                    offset,
                    end,
                }
            }
        }
    }
}

// What is decided of the page with that number. A refusal has neither a directory nor warnings.
pub fn decide_page(number: u64, plain: &[u8], options: Options) -> Result<Decided, Refusal>
    ensures decided { result ≡ page_decision options.search_limit number plain.now (directory options) }
    ensures sound { IfOk result (λ d. IfSome d.listed (λ l. Sound plain.now l.start l.count)) }
{
    let decided = decide(plain, options.search_limit, options.directory());
    decided.map_err(|unlisted| unlisted.of_page(number))
}

// The parse of a page, its checks in their order: the length, the limit, where the directory is, offsets inside it.
#[tactic(auto, using(crate::proofs::Decisions::deciding))]
pub fn decide(plain: &[u8], limit: usize, lenient: bool) -> Result<Decided, Unlisted>
    ensures { result ≡ decision_of limit plain.now lenient }
{
    let length = plain.len();
    if length != 4096 {
        return Err(Unlisted::WrongLength(length));
    }
    if !Options::limit_fits(limit) {
        return Err(Unlisted::LimitOutOfRange(limit));
    }
    let n = plain[0xFF0];
    let d = find(plain, limit, n, lenient)?;
    check_inside(plain, lenient, d)
}

fn take(
    listed: Option<Listed>,
    first: Option<WarningKind>,
    second: Option<WarningKind>,
) -> Result<Decided, Unlisted>
    ensures { result ≡ taken listed first second }
{
    Ok(Decided {
        listed,
        first,
        second,
        third: None,
    })
}

fn declared_at(start: usize, count: usize) -> Option<Listed>
    ensures { result ≡ Some (declared_at start count) }
{
    Some(Listed {
        start,
        count,
        declared: Some(count),
    })
}

fn scanned_as(d: Scan) -> Option<Listed>
    ensures { result ≡ Some (scanned_as d) }
{
    Some(Listed {
        start: d.start,
        count: d.slots,
        declared: None,
    })
}

// Where the directory is, by the row count n.
#[tactic(auto, using(crate::proofs::Decisions::finding))]
fn find(plain: &[u8], limit: usize, n: u8, lenient: bool) -> Result<Decided, Unlisted>
    ensures { result ≡ found_of limit plain.now n lenient }
{
    if n == 0 {
        return unconfirmed(scan(plain, limit), lenient, false, None);
    }
    let found = prelude_candidates(plain, limit, n);
    if n < 4 {
        return few(found, usize::from(n), lenient);
    }
    many(plain, limit, found, usize::from(n), lenient)
}

// The scan of a page that is plain, as at bv = 0.
fn scan(plain: &[u8], limit: usize) -> Option<Scan>
    ensures { result ≡ scanned_directory limit plain.now }
{
    scanned_directory(plain, 0, limit)
}

// A count from 1 to 3: the pairs (1, 0) to (3, 0) are the commonest in page data, so they confirm nothing.
fn few(found: Prelude, n: usize, lenient: bool) -> Result<Decided, Unlisted>
    ensures { result ≡ few_of found n lenient }
{
    match found {
        Prelude::Missing => few_none(lenient),
        Prelude::Truncated { .. } => few_none(lenient),
        Prelude::One(start) => {
            if lenient {
                return take(
                    declared_at(start, n),
                    Some(WarningKind::UnverifiedDirectory),
                    None,
                );
            }
            Err(Unlisted::NoDirectory(Reason::CountBelowFour))
        }
        Prelude::Several => {
            if lenient {
                return take(None, Some(WarningKind::AmbiguousSlotDirectory), None);
            }
            Err(Unlisted::NoDirectory(Reason::CountBelowFour))
        }
    }
}

fn few_none(lenient: bool) -> Result<Decided, Unlisted>
    ensures { result ≡ few_of Missing 0 lenient }
{
    if lenient {
        return take(None, Some(WarningKind::UnknownPrelude), None);
    }
    Err(Unlisted::NoPrelude)
}

// A count of 4 or more: one prelude confirms the directory.
fn many(
    plain: &[u8],
    limit: usize,
    found: Prelude,
    n: usize,
    lenient: bool,
) -> Result<Decided, Unlisted>
    ensures { result ≡ many_of found n (scanned_directory limit plain.now) lenient }
{
    match found {
        Prelude::One(start) => take(declared_at(start, n), None, None),
        Prelude::Missing => unconfirmed(scan(plain, limit), lenient, true, None),
        Prelude::Truncated { found, stop } => {
            if !lenient {
                return Err(Unlisted::Truncated {
                    found,
                    expected: n,
                    stop,
                });
            }
            unconfirmed(
                scan(plain, limit),
                true,
                true,
                Some(WarningKind::SlotDirectoryTruncated { found, expected: n }),
            )
        }
        Prelude::Several => {
            if !lenient {
                return Err(Unlisted::Ambiguous);
            }
            unconfirmed(
                scan(plain, limit),
                true,
                true,
                Some(WarningKind::AmbiguousSlotDirectory),
            )
        }
    }
}

// No prelude confirms a directory: the scan decides. `counted`: the page has a row count. `before` is warned first.
fn unconfirmed(
    found: Option<Scan>,
    lenient: bool,
    counted: bool,
    before: Option<WarningKind>,
) -> Result<Decided, Unlisted>
    ensures { result ≡ unconfirmed_of found lenient counted before }
{
    match found {
        Some(d) => {
            if lenient {
                return take(
                    scanned_as(d),
                    before,
                    Some(WarningKind::UnverifiedDirectory),
                );
            }
            Err(Unlisted::NoDirectory(reason(d.live)))
        }
        None => {
            if !counted {
                return take(None, None, None);
            }
            if lenient {
                return take(None, before, Some(WarningKind::UnknownPrelude));
            }
            Err(Unlisted::NoPrelude)
        }
    }
}

fn reason(live: usize) -> Reason
    ensures { result ≡ reason_of live }
{
    if live < 8 {
        Reason::FewerThanEightLive
    } else {
        Reason::Unconfirmed
    }
}

// Offsets inside the directory refuse the page, or are dropped with one warning. They fall, so where the last lies past the end all do.
fn check_inside(plain: &[u8], lenient: bool, d: Decided) -> Result<Decided, Unlisted>
    requires { IfSome d.listed (λ l. Sound plain.now l.start l.count) }
    ensures { result ≡ inside_checked plain.now lenient (Ok d) }
{
    let Some(listed) = d.listed else {
        return Ok(d);
    };
    let start = listed.start;
    let count = listed.count;
    let end = start + 2 * count;
    let slots = slots_at(plain, start, count);
    if end <= last_live(slots) {
        return Ok(d);
    }
    let Some(offset) = first_inside(slots, start, end) else {
        return Ok(d);
    };
    if !lenient {
        return Err(Unlisted::OffsetInside { offset, end });
    }
    Ok(Decided {
        third: Some(WarningKind::SlotOffsetsInDirectory {
            dropped: count_inside(slots, start, end),
        }),
        ..d
    })
}

// The slots of a directory, where they stand in the page; none where they do not lie within it.
pub fn slots_at(plain: &[u8], start: usize, count: usize) -> &[[u8; 2]]
    ensures slots { start + 2 * count ≤ length plain.now → map slot_value result.now ≡ slots_of plain.now start count }
    ensures long { start + 2 * count ≤ length plain.now → length result.now ≡ count }
    ensures none { length plain.now < start + 2 * count → result.now ≡ [] }
{
    if plain.len() < start || (plain.len() - start) / 2 < count {
        return &[];
    }
    let stop = start + 2 * count;
    pairs_in(&plain[start..stop])
}

// From the directory's far end the first slot that is not deleted; 0 where there is none.
fn last_live(slots: &[[u8; 2]]) -> usize
    ensures { result ≡ unwrap_or (option_map slot_value (find (λ s. not (slot_value s == 0)) (reverse slots.now))) 0 }
{
    slots
        .iter()
        .rev()
        .find(|slot| pair_of(**slot) != 0)
        .map_or(0, |slot| pair_of(*slot))
}

// The first offset that points inside.
fn first_inside(slots: &[[u8; 2]], start: usize, stop: usize) -> Option<usize>
    ensures { result ≡ option_map slot_value (find (λ s. is_inside start stop (slot_value s)) slots.now) }
{
    slots
        .iter()
        .find(|slot| is_inside(start, stop, pair_of(**slot)))
        .map(|slot| pair_of(*slot))
}

fn count_inside(slots: &[[u8; 2]], start: usize, stop: usize) -> usize
    ensures { result ≡ length (keep (is_inside start stop) (map slot_value slots.now)) }
{
    slots
        .iter()
        .filter(|slot| is_inside(start, stop, pair_of(**slot)))
        .count()
}

// A live offset that points between the array's start and its end; the end itself is outside.
#[tactic(auto, unfolding(crate::specs::Directory::is_inside))]
fn is_inside(start: usize, stop: usize, v: usize) -> bool
    ensures { result ≡ is_inside start stop v }
{
    v != 0 && (start..stop).contains(&v)
}
