// Cards: the value of the register.
ghost use Rattle.std.specs.Prelude.{◌≡◌, ◌+◌, ◌<◌, ◌≤◌, length, drop, slice_index_or};
ghost use Rattle.base.specs.BigEndian.{from_bytes};
ghost use Rattle.base.specs.Refusal.{outcome};
ghost use Rattle.wire.specs.Card.{row, table, standing, read_fields, good_card_map, check_card, shown, read_answer, card_read, stands_under};

use crate::digest_words::same_hash;
use crate::sha256::hash_short;
use base::refusal::Refusal;

// A row of the card's table: how many bytes the field has, its least and its greatest value.
#[derive(Clone, Copy)]
struct Row {
    width: usize,
    least: u32,
    greatest: u32,
}

const BITS: usize = 7;

const MAP_BYTES: usize = 2;

#[tactic(auto, unfolding(crate::specs::Card::table))]
fn row_of(bit: usize) -> Row
    requires { bit < 7 }
    ensures { (result ≡ slice_index_or table bit (row 0 0 0)) × (result.width ≤ 4) }
{
    match bit {
        0 | 1 => Row {
            width: 2,
            least: 4_000,
            greatest: 9_000,
        },
        2 | 3 => Row {
            width: 2,
            least: 150,
            greatest: 350,
        },
        4 => Row {
            width: 4,
            least: 0,
            greatest: 2_000_000,
        },
        5 => Row {
            width: 1,
            least: 1,
            greatest: 4,
        },
        _ => Row {
            width: 2,
            least: 0,
            greatest: 65_535,
        },
    }
}

// The number that a few bytes write.
fn number(bytes: &[u8]) -> u32
    requires { length bytes.now ≤ 4 }
    ensures { result ≡ from_bytes bytes.now }
{
    let mut n = 0;
    for byte in bytes {
        n = n * 256 + u32::from(*byte);
    }
    n
}

// The field that stands at a place, if it is in its range.
fn read_field(card: &[u8], at: usize, row: Row) -> Option<u32>
    requires { (at ≤ length card.now) × (row.width ≤ 4) }
    ensures { result ≡ shown (standing row (drop at card.now)) }
{
    if card.len() - at < row.width {
        return None;
    }
    let value = number(&card[at..at + row.width]);
    if value < row.least || row.greatest < value {
        return None;
    }
    Some(value)
}

// The map says which fields follow: bits 7 to 15 are 0, and both diameters are present or none.
#[tactic(auto, unfolding(crate::specs::Card::good_card_map))]
fn good_map(map: u32) -> bool
    ensures { result ≡ good_card_map map }
{
    map < 128 && map % 2 == map / 2 % 2
}

// The fields behind a map that is good: bit i of the map says that field i is there.
fn read_fields(card: &[u8], map: u32) -> Result<[Option<u32>; 7], Refusal>
    requires { (2 ≤ length card.now) × (map < 128) }
    ensures { outcome result ≡ read_answer (read_fields table map (drop 2 card.now)) }
{
    let mut fields = [None; 7];
    let mut at = MAP_BYTES;
    let mut rest = map;
    for bit in 0..BITS {
        if rest % 2 == 1 {
            let row = row_of(bit);
            let Some(value) = read_field(card, at, row) else {
                return Err(Refusal::BadCard);
            };
            fields[bit] = Some(value);
            at += row.width;
        }
        rest = rest / 2;
    }
    if at < card.len() {
        return Err(Refusal::BadCard);
    }
    Ok(fields)
}

// A card's fields by their bits, or refusal 14.
pub fn read(card: &[u8]) -> Result<[Option<u32>; 7], Refusal>
    ensures { outcome result ≡ card_read card.now }
{
    if card.len() < MAP_BYTES {
        return Err(Refusal::BadCard);
    }
    let map = number(&card[..MAP_BYTES]);
    if !good_map(map) {
        return Err(Refusal::BadCard);
    }
    read_fields(card, map)
}

// Whether a card keeps its table.
pub fn check(card: &[u8]) -> Result<(), Refusal>
    ensures { outcome result ≡ check_card card.now }
{
    read(card)?;
    Ok(())
}

// Whether a card keeps its table and has this digest: test 14 of a card with its proof's.
pub fn stands_under(card: &[u8], digest: &[u8]) -> bool
    ensures { result ≡ stands_under card.now digest.now }
{
    check(card).is_ok() && same_hash(&hash_short(card), digest)
}
