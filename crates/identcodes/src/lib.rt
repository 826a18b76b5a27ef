// The identcodes of a file's parcel lines: whether one was met before. They stand in a crit-bit tree, kept in a row of words.
//
// Kept: words with places in them, and not `Box` or a map, for the library has no heap, and a file's tree lies in fixed memory.
//
// A word below 65,536 is a leaf: the offset of a parcel line, whose identcode is the 22 digits behind `040;`. Any other word is a
// fork: (digit * 256 + byte) * 65,536 + pair. A code whose digit there is below the byte goes on at the word `pair`, any other at the
// word behind it. The way starts at word 0 and ends at a leaf, the only code that can be the one looked for. A new code parts that
// leaf: a fork takes its place, and the two codes the pair.
//
// Three parcel lines that start at the offsets 0, 30 and 60, and the row behind each:
//
//     040;1000000000000000000007;;    0
//     040;1000000000000000000014;;    338755585 0 30               digit 20 (counted from 0) below `1`: word 1, else word 2
//     040;2000000000000000000004;;    338755585 3276803 30 0 60    word 1 parted: digit 0 below `2`: word 3, else word 4
//
// A fork asks for a byte and not a bit. On no way is a digit asked twice with the same byte, so that none has more than nine forks for
// each of the 22 digits, whatever the codes and their order.
#![tactic(auto)]

ghost use Rattle.std.specs.Prelude.{◌≡◌, ◌<◌, get_or, set};
ghost use Rattle.identcodes.specs.Tree.{fork, leads_to, slot_from, unlike_at, planted, parted, is_there, grown, has_room, Finds};

#[derive(Clone, Copy, Debug, PartialEq, Eq)]
pub enum CodeAnswer {
    // The tree has this code.
    Known,
    // It had not, and has it now.
    New,
    // The row is too short for one parcel more, or a number is too large for its words.
    NoRoom,
}

// Whether the tree of so many parcels has the identcode of the parcel line that starts here; one that it has not is put into it.
// Kept: the row and the count beside it, for its promise (`Finds`) is of any row with any count, and this function is one to use (README).
#[tactic(auto, using(crate::proofs::Answers::room_parts), unfolding(crate::specs::Tree::code_answer, crate::specs::Tree::tree_after))]
pub fn find_or_grow(file: &[u8], tree: &mut [u32], parcels: usize, offset: usize) -> CodeAnswer
    ensures { Finds file.now tree.old parcels offset result tree.new }
{
    if !has_room(tree, parcels, offset) {
        return CodeAnswer::NoRoom;
    }
    if is_known(file, tree, parcels, offset) {
        return CodeAnswer::Known;
    }
    CodeAnswer::New
}

// Whether one parcel more has its words in the row, and their places and its offset are below 65,536.
#[tactic(auto, unfolding(crate::specs::Tree::has_room))]
fn has_room(tree: &[u32], parcels: usize, offset: usize) -> bool
    ensures { result ≡ has_room tree.now parcels offset }
{
    offset < 65536 && parcels < 32768 && 2 * parcels < tree.len()
}

// Whether the code is known, where there is room; a new one is put into the tree.
#[tactic(auto, unfolding(crate::specs::Tree::is_there, crate::specs::Tree::grown))]
fn is_known(file: &[u8], tree: &mut [u32], parcels: usize, offset: usize) -> bool
    requires { (parcels < 32768) × (offset < 65536) }
    ensures { (result ≡ is_there file.now tree.old parcels offset)
        × (tree.new ≡ grown file.now tree.old parcels offset) }
{
    if parcels == 0 {
        store(tree, 0, offset as u32);
        return false;
    }
    let code = text::clip(file, offset + 4, 22);
    let slot = find_slot(tree, 2 * parcels - 1, code);
    let leaf = tree.get(slot).copied().unwrap_or(0);
    let earlier = text::clip(file, leaf as usize + 4, 22);
    let digit = unlike_at(earlier, code);
    if 22 <= digit {
        return true;
    }
    let there = earlier.get(digit).copied().unwrap_or(0);
    let here = code.get(digit).copied().unwrap_or(0);
    let pair = (2 * parcels - 1) as u16;
    part(tree, slot, pair, digit as u8, there, here, offset as u32);
    false
}

// The place of the leaf to which a code comes, in at most so many turns.
#[tactic(auto, using(crate::proofs::Slots::slot_on))]
fn find_slot(tree: &[u32], turns: usize, code: &[u8]) -> usize
    ensures { result ≡ slot_from turns tree.now code.now 0 }
{
    let mut slot = 0;
    for turn in 0..turns {
        let word = tree.get(slot).copied().unwrap_or(0);
        if word < 65536 {
            return slot;
        }
        slot = next_slot(word, code);
    }
    slot
}

// Where a fork leads a code.
#[tactic(auto, unfolding(crate::specs::Tree::digit_of, crate::specs::Tree::byte_of, crate::specs::Tree::pair_of))]
fn next_slot(fork: u32, code: &[u8]) -> usize
    ensures { result ≡ leads_to fork code.now }
{
    let word = fork as usize;
    let pair = word % 65536;
    let byte = (word / 65536 % 256) as u8;
    let here = code.get(word / 16777216).copied().unwrap_or(0);
    if here < byte { pair } else { pair + 1 }
}

// The first digit at which two codes are unlike, or 22.
#[tactic(auto, using(crate::proofs::Unlike::unlike_steps), unfolding(crate::specs::Tree::unlike_at))]
fn unlike_at(a: &[u8], b: &[u8]) -> usize
    ensures { result ≡ unlike_at a.now b.now }
{
    for i in 0..22 {
        if a.get(i).copied().unwrap_or(0) != b.get(i).copied().unwrap_or(0) {
            return i;
        }
    }
    22
}

// Parts the leaf at this place: a fork that asks the digit at which the two codes are unlike.
#[tactic(auto, unfolding(crate::specs::Tree::parted))]
fn part(tree: &mut [u32], slot: usize, pair: u16, digit: u8, earlier: u8, here: u8, new: u32)
    ensures { tree.new ≡ parted tree.old slot pair digit earlier here new }
{
    let leaf = tree.get(slot).copied().unwrap_or(0);
    if earlier < here {
        let fork = fork_of(digit, here, pair);
        plant(tree, slot, pair, leaf, new, fork);
    } else {
        let fork = fork_of(digit, earlier, pair);
        plant(tree, slot, pair, new, leaf, fork);
    }
}

// Puts the words of a pair, and the fork that leads to them where the leaf was.
fn plant(tree: &mut [u32], slot: usize, pair: u16, first: u32, second: u32, fork: u32)
    ensures { tree.new ≡ planted tree.old slot pair first second fork }
{
    let place = usize::from(pair);
    store(tree, place, first);
    store(tree, place + 1, second);
    store(tree, slot, fork);
}

// The word of a fork.
#[tactic(auto, unfolding(crate::specs::Tree::fork))]
fn fork_of(digit: u8, byte: u8, pair: u16) -> u32
    ensures { result ≡ fork digit byte pair }
{
    (u32::from(digit) * 256 + u32::from(byte)) * 65536 + u32::from(pair)
}

// A word put at a place; past the end nothing changes.
fn store(tree: &mut [u32], place: usize, word: u32)
    ensures { tree.new ≡ set tree.old place word }
{
    if place < tree.len() {
        tree[place] = word;
    }
}
