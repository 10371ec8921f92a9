// The replay for C and Rust to link: one function, under a name that is this project's own.
#![tactic(auto)]

ghost use Rattle.std.specs.Prelude.{◌≡◌, ◌++◌, length, drop, leb};
ghost use Rattle.lists.specs.Lists.{choose};
ghost use Rattle.rules.specs.Outcome.{base};
ghost use Rattle.rules.specs.Script.{versions};
ghost use Rattle.rules.specs.Program.{replay};

// `replay_script::replay`: the length of the output, which stands at the start of the buffer if it fits there; else the buffer is as it was.
#[unsafe(no_mangle)]
pub extern "C" fn scumbradel_replay(script: &[u8], out: &mut [u8]) -> usize
    ensures size { result ≡ length (replay base versions script.now) }
    ensures bytes { out.new ≡ choose (leb result (length out.old)) (replay base versions script.now ++ drop result out.old)
        out.old }
{
    replay_script::replay(script, out)
}
