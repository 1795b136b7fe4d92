//! Laws over the definitions.

ghost use Rattle.sdf_process.specs.Laws.{OneOutput};

use sdf_actor::laws::one_history;
use sdf_file::Design;
use sdf_kit::Kit;

/// States that there is one output: every run of a design on a WAV file makes the same sound, by whatever order of
/// firings. The proof depends on the uniqueness of channel histories (Kahn 1974) and of the sound in a file.
pub fn one_output(design: &Design)
    ensures { OneOutput design.now }
{
    let net = design.net();
    let _ = net.graph();
    one_history::<Kit>();
}
