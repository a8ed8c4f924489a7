// Going through a certificate: its header and its steps, put into a lent buffer byte by byte, or only counted.
#![tactic(auto)]

mod bytes;
pub mod run;
mod steps;

ghost use Rattle.hand.specs.Environment.{env_of};
ghost use Rattle.pen.specs.Wrote.{Wrote};
ghost use Rattle.pen.specs.Steps.{whole_bytes, Holding};

use bytes::Sheet;
use hand::env::Env;
use run::Run;

// One run over the certificate of a side on which the goal holds: its header, and its steps. Where the run writes, the bytes go to the buffer, each where
// there is room for it; else they are only counted. Returns how many they are, or one more than the buffer has where they do not fit.
pub fn whole(run: &Run<'_>, goal: u8, start: u8, env: Env, out: &mut [u8]) -> usize
    requires { Holding run.now.setup.image.now run.now.setup.table.now run.now.side goal env }
    ensures { Wrote run.now.writing (whole_bytes run.now.setup.image.now run.now.setup.table.now run.now.side goal start (env_of env))
        0 out.old out.new result }
{
    let mut sheet = Sheet { out, at: 0 };
    run.header(goal, start, &mut sheet);
    run.formula(goal, env, &mut sheet);
    let Sheet { out: _, at } = sheet;
    at
}
