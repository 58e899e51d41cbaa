// The initial values of the compiled task.
ghost use Rattle.std.specs.Prelude.{◌≡◌, ◌++◌, ◌+◌, take, drop};
ghost use Rattle.normal_form.specs.Finished.{twin_values};
ghost use Rattle.rule_writer.specs.Inner.Writes.{InitialReady};

use task::copying::copy_all;

// The source's v values, then those of w twins, each opposite to its original's. V + W steps.
pub fn write_initial(source: &[u8], originals: &[u16], out: &mut [u8], v: usize, w: usize)
    requires { InitialReady source.now originals.now out.old v w }
    ensures { out.new ≡ (take v source.now ++ twin_values (take v source.now) (take w originals.now)) ++ drop (v + w) out.old }
{
    copy_all(&mut out[..v], &source[..v]);
    for (k, original) in originals[..w].iter().enumerate() {
        out[v + k] = 1 - source[*original as usize];
    }
}
