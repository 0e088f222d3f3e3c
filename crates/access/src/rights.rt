// The table of rights (request #105): four roles by four rights, one byte a cell, role by role. It is lent beside a preprocessor and is no part of it.
ghost use Rattle.std.specs.Prelude.{◌≡◌, true, [], ◌∷◌, ◌<◌, eqb};
ghost use Rattle.access.specs.Access.{place, bits, table_fits, table_entry, granted, allowed, every_right};
ghost use Rattle.access.specs.declared.rights.Right.TheVariants.{SEE, LEARN};

use refusal::Refusal;

// In the order of a role's cells: see (point, transform, turn-back, scale, shift, status and the getters), learn (learn, drain), save, restore.
#[derive(Clone, Copy, Debug, PartialEq, Eq, Hash)]
pub enum Right {
    SEE,
    LEARN,
    SAVE,
    RESTORE,
}

// The place of its cell among a role's four.
impl From<Right> for usize {
    ghost from_gives = { λ right at. (at ≡ place right) × (at < 4) };

    fn from(right: Right) -> usize {
        match right {
            Right::SEE => 0,
            Right::LEARN => 1,
            Right::SAVE => 2,
            Right::RESTORE => 3,
        }
    }
}

// The table of a program that asks for no roles.
pub fn every_right() -> [u8; 16]
    ensures { result ≡ every_right }
{
    [1; 16]
}

// Whether every cell is 0 or 1, by the largest of them: all are looked at, so that a compiler can look at them at once.
fn all_bits(table: &[u8]) -> bool
    ensures { result ≡ bits table.now }
{
    let mut largest = 0;
    for cell in table {
        largest = largest.max(*cell);
    }
    largest < 2
}

// Whether the table is one, and the role one of its four.
fn has_role(table: &[u8], role: u64) -> bool
    ensures { result ≡ table_fits table.now role }
{
    table.len() == 16 && role < 4 && all_bits(table)
}

// Whether the cell says so.
fn is_granted(table: &[u8], role: u64, right: Right) -> bool
    requires { table_fits table.now role ≡ true }
    ensures { result ≡ eqb (table_entry table.now role right) 1 }
{
    let right_at = usize::from(right);
    let at = 4 * (role as usize) + right_at;
    table[at] == 1
}

// Whether the role has the right.
pub fn may(table: &[u8], role: u64, right: Right) -> bool
    ensures { result ≡ granted table.now role (right ∷ []) }
{
    has_role(table, role) && is_granted(table, role, right)
}

// Whether the role has both rights that a point needs.
pub fn may_point(table: &[u8], role: u64) -> bool
    ensures { result ≡ granted table.now role (SEE ∷ LEARN ∷ []) }
{
    has_role(table, role)
        && is_granted(table, role, Right::SEE)
        && is_granted(table, role, Right::LEARN)
}

// Every entry that a role may be refused begins with one of these two.
pub fn demand(table: &[u8], role: u64, right: Right) -> Result<(), Refusal>
    ensures { result ≡ allowed (granted table.now role (right ∷ [])) }
{
    if may(table, role, right) {
        Ok(())
    } else {
        Err(Refusal::Withheld)
    }
}

pub fn demand_point(table: &[u8], role: u64) -> Result<(), Refusal>
    ensures { result ≡ allowed (granted table.now role (SEE ∷ LEARN ∷ [])) }
{
    if may_point(table, role) {
        Ok(())
    } else {
        Err(Refusal::Withheld)
    }
}
