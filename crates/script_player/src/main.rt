// Plays scripts with replicas, clients and viewing clients, a line a call, and prints each answer. Bytes are in hex, `-` for none.
//   new                                set all parties and messages aside
//   replica F ID KEY,                  set a party up
//   client F ID NONCE,
//   viewer F ID NONCE
//   write ID REGISTER CARD,            begin a client's write or read, or a viewing client's view
//   read ID REGISTER, view ID REGISTER
//   to-replica ID MESSAGE VERDICTS,    hand a message over, `@M` for the M-th that was sent;
//   to-client ID MESSAGE VERDICTS,     as verdicts `+` for a 1 per signature
//   to-viewer ID MESSAGE VERDICTS
//   lent N CALL                        the same with an output of N bytes, 0 to 1,600, in place of 1,600
//   order ID ORDER                     hand an order to a replica
//   hand ID REGISTER PROOF VERDICTS    hand a written proof to a client
//   keep PARTY ID, restore PARTY ID    copy a party's record aside, and put it back; PARTY is replica, client or viewer
//   # TEXT                             is printed as it stands
// Any other line, and one about a party that is not set up, is unread.
#![tactic(auto)]

mod answers;
mod clients;
mod log;
mod parties;
mod replicas;
mod tasks;
mod words;

use answers::Word;
use base::slices::front;
use client::viewer::Viewer;
use log::Log;
use parties::turn;
use protocol::client::Client;
use protocol::replica::Bank;
use std::io;
use std::io::Read;
use tasks::{CLIENT_PLACES, REPLICA_PLACES, VIEWER_PLACES, Whom, of_line};
use text::line::NEWLINE;

const SCRIPT: usize = 1_048_576;

// An empty place is not written: a place is as large as a record.
fn set_aside<P: Copy>(records: &mut [Option<P>]) {
    for record in records {
        if record.is_some() {
            *record = None;
        }
    }
}

// The records are made here: another function's result would stand on the stack a second time, and they fill half of it.
fn play_lines(rt: &impl Print, script: &[u8]) -> io::Result<()> {
    let mut replicas: [Option<Bank>; REPLICA_PLACES] = [None; REPLICA_PLACES];
    let mut clients: [Option<Client>; CLIENT_PLACES] = [None; CLIENT_PLACES];
    let mut viewers: [Option<Viewer>; VIEWER_PLACES] = [None; VIEWER_PLACES];
    let mut log = Log::empty();
    for line in script.split_inclusive(|byte| *byte == NEWLINE) {
        let line = line.strip_suffix(&[NEWLINE]).unwrap_or(line);
        match line {
            b"new" => {
                set_aside(&mut replicas);
                set_aside(&mut clients);
                set_aside(&mut viewers);
                log.clear();
                print!(rt; "{}\n", Word::New)?;
            }
            [b'#', b' ', ..] => {
                console::print(rt, line)?;
                print!(rt; "\n")?;
            }
            _ => match of_line(line) {
                Some(task) => match task.whom {
                    Whom::Replica => turn(rt, &mut replicas, task, line, &mut log)?,
                    Whom::Client => turn(rt, &mut clients, task, line, &mut log)?,
                    Whom::Viewer => turn(rt, &mut viewers, task, line, &mut log)?,
                },
                None => print!(rt; "{}\n", Word::Unread)?,
            },
        }
    }
    Ok(())
}

fn read(input: &mut impl Read, script: &mut [u8; SCRIPT]) -> io::Result<usize> {
    console::read_full(input, script)
}

fn play(rt: &impl Print, script: &[u8; SCRIPT], n: usize) -> io::Result<()> {
    play_lines(rt, front(script, n))
}

fn main(rt: HostRuntime) -> io::Result<()> {
    let mut stdin = rt.stdin();
    let mut script = console::zeros::<SCRIPT>();
    let n = read(&mut stdin, &mut script)?;
    play(&rt, &script, n)?;
    console::say_rest(&rt, &mut stdin, n, SCRIPT)
}
