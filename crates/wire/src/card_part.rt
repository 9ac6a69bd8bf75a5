// The card of a message, as the part of the message that carries it.
ghost use Rattle.std.specs.Prelude.{◌≡◌, if◌then◌else◌};
ghost use Rattle.wire.specs.CardPart.{PartAt, card_part, card_start, later_card, second_later, later_start};
ghost use Rattle.wire.specs.Found.{Finds};

use base::slices::between;
use base::timestamp::Timestamp;

// Where a card starts and ends, and the timestamp of the prepared proof that came with it.
#[derive(Drop)]
struct Card {
    start: usize,
    end: usize,
    timestamp: Timestamp,
}

// The card of a message; none where tests 2 to 4 refuse the message, and where it has none.
fn find(bytes: &[u8]) -> Option<Card>
    ensures { Finds bytes.now result }
{
    let places = crate::frame::frame(bytes).ok()?;
    if places.card == places.prepared {
        return None;
    }
    let timestamp = crate::parts::timestamp(between(bytes, places.prepared, places.written));
    Some(Card {
        start: places.card + 1,
        end: places.prepared,
        timestamp,
    })
}

// The bytes of a message that carry its card; an empty part where tests 2 to 4 refuse it, and where it has no card.
pub fn card_part(bytes: &[u8]) -> &[u8]
    ensures result_value { result.now ≡ card_part bytes.now }
    ensures part_at { PartAt bytes.entry.ref_ptr (card_start bytes.now) result.ref_ptr }
{
    let Some(card) = find(bytes) else {
        return &bytes[0..0];
    };
    &bytes[card.start..card.end]
}

// Of two messages with a card, the card part of the one whose proof is later, the first on a tie.
pub fn later_card<'a>(first: &'a [u8], second: &'a [u8]) -> &'a [u8]
    ensures result_value { result.now ≡ later_card first.now second.now }
    ensures part_at { PartAt (if second_later first.now second.now then second.entry.ref_ptr else first.entry.ref_ptr) (later_start first.now second.now) result.ref_ptr }
{
    let Some(one) = find(first) else {
        return &first[0..0];
    };
    let Some(two) = find(second) else {
        return &first[0..0];
    };
    // By number: the wrong program on a tie (must-fail) is `<=` here.
    if one.timestamp.number() < two.timestamp.number() {
        return &second[two.start..two.end];
    }
    &first[one.start..one.end]
}
