// Pairs of register and value: which are accepted, and what a session keeps of them.
ghost use Rattle.std.specs.Prelude.{◌≡◌, cond, ◌&&◌, ◌||◌, eqb};
ghost use Rattle.std.specs.List.{list_all};
ghost use Rattle.settings.specs.Registers.{is_register, named, are_pairs, tidy, is_tidy};

use crate::Pairs;

// The most pairs that settings name.
const MOST_PAIRS: usize = 4;

// Whether each of these is a register that a pair may name.
fn are_registers(fpdat: u8, registers: &[u8]) -> bool
    ensures { result ≡ list_all (is_register fpdat) registers.now }
{
    registers.iter().all(|r| 3 <= *r && *r != fpdat)
}

// Whether there are at most four pairs, each of a register that it may name.
fn entries_fit(fpdat: u8, p: Pairs) -> bool
    ensures { result ≡ are_pairs fpdat p }
{
    let count = usize::from(p.count);
    count <= MOST_PAIRS && are_registers(fpdat, &p.registers[..count])
}

// Whether pairs are accepted, of settings or of a modelled target, whose device has this FPDAT address. Most name
// none, and then no entry is looked at: with the loop in a function of its own compilers make this test in place.
pub fn are_pairs(fpdat: u8, p: Pairs) -> bool
    ensures { result ≡ are_pairs fpdat p }
{
    p.count == 0 || entries_fit(fpdat, p)
}

// An entry, or 0 where it is not named.
fn if_named(named: bool, entry: u8) -> u8
    ensures { result ≡ cond named entry 0 }
{
    if named { entry } else { 0 }
}

// Entries with 0 for those that are not named, each by a test of its own: `fill` would ask for a C library's memset.
fn named(count: u8, entries: [u8; MOST_PAIRS]) -> [u8; MOST_PAIRS]
    ensures { result ≡ named count entries }
{
    [
        if_named(0 < count, entries[0]),
        if_named(1 < count, entries[1]),
        if_named(2 < count, entries[2]),
        if_named(3 < count, entries[3]),
    ]
}

// The same pairs with 0 in the entries that are not named.
#[tactic(auto, unfolding(crate::specs::Registers::tidy))]
pub fn tidy(p: Pairs) -> Pairs
    ensures { result ≡ tidy p }
{
    Pairs {
        count: p.count,
        registers: named(p.count, p.registers),
        values: named(p.count, p.values),
    }
}

// Whether an entry of each list is named, or 0.
fn named_or_0(named: bool, register: u8, value: u8) -> bool
    ensures { result ≡ named || (eqb register 0 && eqb value 0) }
{
    named || (register == 0 && value == 0)
}

// Whether the entries that are not named are 0, each by a test of its own: every call of a session makes them, and
// loops over the two lists cost a call up to a tenth more.
#[tactic(auto, using(laws::proofs::Pick::picks), unfolding(crate::specs::Registers::is_tidy))]
pub fn is_tidy(p: Pairs) -> bool
    ensures { result ≡ is_tidy p }
{
    named_or_0(0 < p.count, p.registers[0], p.values[0])
        && named_or_0(1 < p.count, p.registers[1], p.values[1])
        && named_or_0(2 < p.count, p.registers[2], p.values[2])
        && named_or_0(3 < p.count, p.registers[3], p.values[3])
}
