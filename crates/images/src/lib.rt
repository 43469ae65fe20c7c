// 'Code, tables, macros' of document 01, the tables and the images of bit states, and the way back, and the moves of request 06: conditions 23,
// 18 and 19, then a store of 544 bytes, by ranges of places of one kind.

#![tactic(auto)]

ghost use Rattle.std.specs.Prelude.{◌≡◌, true, false, cond, ◌&&◌, [], ◌∷◌, ◌+◌, ◌-◌, ◌*◌, ◌≤◌, ◌<◌, eqb, length, get_or, map, OnOk, IfErr};
ghost use Rattle.model.specs.declared.Condition.TheVariants.{WrongLength};
ghost use Rattle.std.specs.List.{list_all};
ghost use Rattle.std.specs.Cmp.Lexicographic.{pointwise};
ghost use Rattle.model.specs.Limits.{state_size};
ghost use Rattle.model.specs.Answers.{report, outcome};
ghost use Rattle.model.specs.Layouts.{Known};
ghost use Rattle.model.specs.Images.{map_at};
ghost use Rattle.model.specs.Images.{bit_right, image_right, every, image_in, bits_in, to_image_outcome, from_image_outcome};
ghost use Rattle.images.specs.Pages.{IsTables, entered, paged, page_bytes};
ghost use Rattle.images.specs.Moving.{moved_in, move_outcome};
ghost use Rattle.images.specs.Ranges.{either, chosen, placed};

use model::{Condition, Layout, Refusal, STATE_SIZE};

// The entries of a table, and the cells of the table page.
const TABLE: usize = 16;

const PAGE: usize = 256;

// Where the codes of 0 and 1 stand in it.
const CODES: usize = coding::CODE_TABLE as usize;

// The three tables of codes of a spacing, at position 0. Three arrays and not one of triples: each is a table of its own, with its own place in the
// page, and `IsTables` speaks of each by itself.
#[derive(Clone, Copy)]
struct Tables {
    and: [u8; TABLE],
    orr: [u8; TABLE],
    xor: [u8; TABLE],
}

// Of neighbours entry 4 * code(a) + code(b) is the code of a op b, the twelve other entries are 0.
const NEIGHBOURS: Tables = Tables {
    and: [0, 0, 0, 0, 0, 1, 2, 0, 0, 2, 2, 0, 0, 0, 0, 0],
    orr: [0, 0, 0, 0, 0, 1, 1, 0, 0, 1, 2, 0, 0, 0, 0, 0],
    xor: [0, 0, 0, 0, 0, 2, 1, 0, 0, 1, 2, 0, 0, 0, 0, 0],
};

// Of spaced bits it is entry 2 * code(a) + code(b).
const SPACED: Tables = Tables {
    and: [0, 0, 0, 1, 0, 0, 4, 0, 0, 4, 0, 0, 4, 0, 0, 0],
    orr: [0, 0, 0, 1, 0, 0, 1, 0, 0, 1, 0, 0, 4, 0, 0, 0],
    xor: [0, 0, 0, 4, 0, 0, 1, 0, 0, 1, 0, 0, 4, 0, 0, 0],
};

fn tables_of(spaced: bool) -> Tables
    ensures { IsTables spaced result }
{
    if spaced { SPACED } else { NEIGHBOURS }
}

// Writes entry k of each of the three tables of position 0, scaled by the code of 1, to where the layout has it in the table page: the entries of a
// table are as far from each other as the code of 1 says. Where no two codes reach the entry, it is 0 in all three, as the page is before, and is
// passed over. `Known layout`, which is asked here and below, is no invariant of `Layout`: `code`, the tables and the macros are defined, and their
// functions promise what they do, for every layout.
fn put_entry(layout: Layout, tables: &Tables, k: usize, page: &mut [u8])
    requires { Known layout × IsTables layout.spaced tables.now × (k < 16) × (length page.old ≡ 256) }
    ensures { page.new ≡ entered layout (get_or tables.now.and k 0) (get_or tables.now.orr k 0) (get_or tables.now.xor k 0) (layout.one * k) page.old }
{
    if tables.and[k] == 0 {
        return;
    }
    let at = (layout.one as usize) * k;
    page[at] = layout.one * tables.and[k];
    page[at + (layout.orr as usize)] = layout.one * tables.orr[k];
    page[at + (layout.xor as usize)] = layout.one * tables.xor[k];
}

// The table page, written to one that must be 0: the three tables, and the two codes by which a public bit is coded.
fn put_page(layout: Layout, page: &mut [u8])
    requires { Known layout × (length page.old ≡ 256) }
    ensures { page.new ≡ paged layout page.old }
{
    let tables = tables_of(layout.spaced);
    for k in 0..TABLE {
        put_entry(layout, &tables, k, page);
    }
    page[CODES] = layout.zero;
    page[CODES + 1] = layout.one;
}

// The table page by itself, to compare an image's with.
fn page_of(layout: Layout) -> [u8; PAGE]
    requires { Known layout }
    ensures { result ≡ page_bytes layout }
{
    let mut page = [0u8; PAGE];
    put_page(layout, &mut page);
    page
}

// ---- bit states and images

// Where the kinds of places change: r0 to r3, public and sensitive registers, public and sensitive cells, the table page.
const R4: usize = 4;

const R16: usize = 16;

const CELLS: usize = 32;

const CELL_128: usize = 160;

const PAGE_START: usize = 288;

// Whether each byte is x or y. `all` would return early, and so look at one byte a step: this loop looks at many.
fn are_either(bytes: &[u8], x: u8, y: u8) -> bool
    ensures { result ≡ list_all (either x y) bytes.now }
{
    let mut good = true;
    for &byte in bytes {
        good = good & ((byte == x) | (byte == y));
    }
    good
}

// Whether the cells of a table page are these. A loop as the one above: with `==` of the library `from_image` takes 58 ns where it takes 43.
fn has_page(page: &[u8; PAGE], cells: &[u8]) -> bool
    requires { length cells.now ≡ 256 }
    ensures { result ≡ pointwise eqb cells.now page.now }
{
    let mut good = true;
    for (i, &byte) in page.iter().enumerate() {
        good = good & (cells[i] == byte);
    }
    good
}

// Writes x where the same place of another part holds the key, y where it does not. The three bytes go through two functions only: a struct of them
// would be made at each call and taken apart in the first line.
fn choose(from: &[u8], into: &mut [u8], key: u8, x: u8, y: u8)
    requires { length from.now ≡ length into.old }
    ensures { into.new ≡ map (chosen key x y) from.now }
{
    for (i, &byte) in from.iter().enumerate() {
        into[i] = if byte == key { x } else { y };
    }
}

// Whether a bit state may hold these bytes: 0 in r0 to r3 and the table page, 0 or 1 in sensitive places. `&` of tests that are made already, here and
// below: with `&&` the answers split into five ways, under the check's own names, where now one equation does.
fn bits_right(bits: &[u8]) -> bool
    requires { length bits.now ≡ state_size }
    ensures { result ≡ every bit_right 0 bits.now }
{
    let scratch = are_either(&bits[..R4], 0, 0);
    let registers = are_either(&bits[R16..CELLS], 0, 1);
    let cells = are_either(&bits[CELL_128..PAGE_START], 0, 1);
    let page = are_either(&bits[PAGE_START..STATE_SIZE], 0, 0);
    scratch & registers & cells & page
}

// Whether an image may hold them on the way back: 0 in r0, a code in sensitive places, the layout's table page; r1 to r3 hold anything. A `bool`, and
// 19 told by the two that ask: as a `Result` that they hand on, `from_image` takes 54 ns where it takes 42.
fn places_right(layout: Layout, page: &[u8; PAGE], image: &[u8]) -> bool
    requires { (page.now ≡ page_bytes layout) × (length image.now ≡ state_size) }
    ensures { result ≡ every (image_right layout) 0 image.now }
{
    let zero = image[0] == 0;
    let registers = are_either(&image[R16..CELLS], layout.one, layout.zero);
    let cells = are_either(&image[CELL_128..PAGE_START], layout.one, layout.zero);
    let same = has_page(page, &image[PAGE_START..STATE_SIZE]);
    zero & registers & cells & same
}

// Public places as they are, x or y in each sensitive place by whether the key stands there; r0 to r3 and the table page are 0.
fn put_places(from: &[u8], into: &mut [u8], key: u8, x: u8, y: u8)
    requires { (length from.now ≡ state_size) × (length into.old ≡ state_size) }
    ensures { into.new ≡ map_at (placed key x y) 0 from.now }
{
    into[..R4].fill(0);
    into[R4..R16].copy_from_slice(&from[R4..R16]);
    choose(&from[R16..CELLS], &mut into[R16..CELLS], key, x, y);
    into[CELLS..CELL_128].copy_from_slice(&from[CELLS..CELL_128]);
    choose(
        &from[CELL_128..PAGE_START],
        &mut into[CELL_128..PAGE_START],
        key,
        x,
        y,
    );
    into[PAGE_START..STATE_SIZE].fill(0);
}

// Condition 19, which is of no line.
const WRONG_IMAGE: Refusal = Refusal {
    condition: Condition::WrongImage,
    line: 0,
};

// 18, unless both lent states have the size of a state. They stay slices: what hands out a lent slice as an array of 544 or a refusal gets no proof
// (`LendsIfOk` takes no slice), and `as_mut_array` in each entry point would ask for 18 in each.
fn check_sizes(one: &[u8], other: &[u8]) -> Result<(), Refusal>
    ensures ok { OnOk result ((length one.now ≡ state_size) × (length other.now ≡ state_size)) }
    ensures err { IfErr result (λ r. ((eqb (length one.now) state_size && eqb (length other.now) state_size) ≡ false) × (r ≡ record { condition = WrongLength; line = 0 })) }
{
    if one.len() == STATE_SIZE && other.len() == STATE_SIZE {
        return Ok(());
    }
    Err(Refusal {
        condition: Condition::WrongLength,
        line: 0,
    })
}

// The image of a bit state in the layout of that position and spacing: 544 bytes written, or 23, 18, then 19, with nothing touched.
pub fn to_image(position: u8, spacing: u8, bits: &[u8], image: &mut [u8]) -> Result<u32, Refusal>
    ensures { outcome (report result) (image.new ∷ []) ≡ to_image_outcome position spacing bits.now image.old }
{
    let layout = coding::layout_named(position, spacing)?;
    check_sizes(bits, image)?;
    if !bits_right(bits) {
        return Err(WRONG_IMAGE);
    }
    put_places(bits, image, 0, layout.zero, layout.one);
    put_page(layout, &mut image[PAGE_START..STATE_SIZE]);
    Ok(STATE_SIZE as u32)
}

// The bit state of an image in that layout, its scratch registers cleared: 544 bytes written, or 23, 18, then 19, with nothing touched.
pub fn from_image(position: u8, spacing: u8, image: &[u8], bits: &mut [u8]) -> Result<u32, Refusal>
    ensures { outcome (report result) (bits.new ∷ []) ≡ from_image_outcome position spacing image.now bits.old }
{
    let layout = coding::layout_named(position, spacing)?;
    check_sizes(image, bits)?;
    let page = page_of(layout);
    if !places_right(layout, &page, image) {
        return Err(WRONG_IMAGE);
    }
    put_places(image, bits, layout.one, 1, 0);
    Ok(STATE_SIZE as u32)
}

// Moves an image from the old layout to the new one, which may be the same: 544 bytes written, or 23 for either layout, 18, then 19 judged in the
// old one by the rule of the way back, with nothing touched.
pub fn move_image(
    old_position: u8,
    old_spacing: u8,
    new_position: u8,
    new_spacing: u8,
    from: &[u8],
    into: &mut [u8],
) -> Result<u32, Refusal>
    ensures { outcome (report result) (into.new ∷ []) ≡ move_outcome old_position old_spacing new_position new_spacing from.now into.old }
{
    let old = coding::layout_named(old_position, old_spacing)?;
    let new = coding::layout_named(new_position, new_spacing)?;
    check_sizes(from, into)?;
    let page = page_of(old);
    if !places_right(old, &page, from) {
        return Err(WRONG_IMAGE);
    }
    put_places(from, into, old.one, new.one, new.zero);
    put_page(new, &mut into[PAGE_START..STATE_SIZE]);
    Ok(STATE_SIZE as u32)
}
