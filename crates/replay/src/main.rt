// Runs the entries on calls whose answers are known and prints a line for each case or file: document 01's hand cases, which stand in the
// file `stdin`, and then the recorded answers of docs/RECORDED.md. Of a record that differs, standard error has what does.
#![tactic(auto)]

ghost use Rattle.std.specs.Prelude.{◌≡◌, length};

use reading::read_full;
use std::io;

mod cases;
mod entries;
mod files;
mod lent;
mod replaying;

// A megabyte, more than the longest file has.
fn room() -> [u8; 1048576]
    ensures { 1048576 ≡ length result }
{
    [0; 1048576]
}

fn main(rt: HostRuntime) -> io::Result<()> {
    let mut file = room();
    let n = read_full(&mut rt.stdin(), &mut file)?;
    cases::show_all(&mut rt.stdout(), &file[..n])?;
    files::replay_all(&rt, &mut rt.stdout(), &mut rt.stderr(), &mut file)
}
