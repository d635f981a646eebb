// What the parse says in a small value, with no table of slots: where the directory is, and the warnings.
ghost use Rattle.std.specs.Prelude.{◌≡◌, ◌≤◌, IfOk, IfSome};
ghost use Rattle.answers.specs.Settings.{directory};
ghost use Rattle.directory.specs.Directory.{Sound};
ghost use Rattle.slotted.specs.Locations.{warned, decided_warnings, located_of};

use answers::{Options, Refusal, Table, Warning, WarningKind};
use directory::{Decided, Listed, decide_page};

// All that a parse says of a page that it accepts but the slots, which are in the page from the directory's start on.
#[derive(Clone, Copy)]
pub struct Located {
    pub listed: Option<Listed>,
    pub warnings: Table<Warning, 3>,
}

// Where the slot directory of a plain page is.
#[tactic(auto, unfolding(crate::specs::Locations::located_of))]
pub fn locate(number: u64, plain: &[u8], options: Options) -> Result<Located, Refusal>
    ensures located { result ≡ located_of options.search_limit number plain.now (directory options) }
    ensures sound { IfOk result (λ l. IfSome l.listed (λ d. Sound plain.now d.start d.count × (d.count ≤ 1024))) }
{
    let d = decide_page(number, plain, options)?;
    Ok(Located {
        listed: d.listed,
        warnings: warnings(number, d),
    })
}

// The warnings of a page that is accepted, in their order, in a table of any size.
pub(crate) fn warnings<const N: usize>(number: u64, d: Decided) -> Table<Warning, N>
    ensures { result ≡ decided_warnings number d }
{
    let mut table = Table::none();
    warn(&mut table, number, d.first);
    warn(&mut table, number, d.second);
    warn(&mut table, number, d.third);
    table
}

// One warning of the page more, where it is given.
fn warn<const N: usize>(table: &mut Table<Warning, N>, number: u64, kind: Option<WarningKind>)
    ensures { table.new ≡ warned table.old number kind }
{
    if let Some(kind) = kind {
        table.add(Warning { page: number, kind });
    }
}
