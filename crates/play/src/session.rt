// The whole run of the player: from the bytes of its script to all that it prints.
ghost use Rattle.std.specs.Prelude.{◌≡◌, take};
ghost use Rattle.text.specs.Line.{lines};
ghost use Rattle.text.specs.Put.{Puts};
ghost use Rattle.play.specs.Player.{turn};
ghost use Rattle.play.specs.Session.{printed_lines, printed, PlaysLine};
ghost use Rattle.play.specs.Worlds.{empty_store};

use crate::output::put_line;
use crate::turn::turn;
use crate::world::World;
use text::buffer::put;
use text::line::line_end;

// What the lines so far leave: the world, and the place behind what is printed.
#[derive(Drop)]
struct Played {
    world: World,
    end: usize,
}

// So many lines are played.
const LINES: u8 = 100;

// Plays the line of this number, and prints what it says.
fn play_line(before: Played, number: u8, line: &[u8], store: &mut [u8], out: &mut [u8]) -> Played
    ensures { PlaysLine (turn before.world store.old line.now) number out.old before.end result store.new out.new }
{
    let turned = turn(before.world, line, store);
    let end = put_line(out, before.end, number, turned.saying);
    Played {
        world: turned.world,
        end,
    }
}

// Plays the first 100 lines of a script; answers the place behind what is printed.
fn play_lines(begun: Played, script: &[u8], store: &mut [u8], out: &mut [u8]) -> usize
    ensures { Puts out.old begun.end (printed_lines begun.world store.old 1 (take 100 (lines script.now))) result out.new }
{
    let mut played = begun;
    let mut from = 0;
    for number in 0..LINES {
        if script.len() <= from {
            break;
        }
        let end = line_end(script, from);
        played = play_line(played, number + 1, &script[from..end], store, out);
        from = end + 1;
    }
    played.end
}

// Room for 100 messages, in a function of its own, so that no other's proof has to unfold so long an array.
#[tactic(auto, unfolding(crate::specs::Worlds::empty_store))]
fn store() -> [u8; 158_000]
    ensures { result ≡ empty_store }
{
    [0u8; 158_000]
}

// Plays a script, and puts all that is printed into the front of a buffer, as far as it has room; answers how many bytes that
// are. No script prints more than 10,818 bytes (`proofs/Room.printed_room`).
pub fn play(script: &[u8], out: &mut [u8]) -> usize
    ensures { Puts out.old 0 (printed script.now) result out.new }
{
    let mut sent = store();
    let end = put(out, 0, b"holders 4 desks 4\n");
    let begun = Played {
        world: World::fresh(),
        end,
    };
    play_lines(begun, script, &mut sent, out)
}
