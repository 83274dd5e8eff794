// The fresh state for a C program.
ghost use Rattle.std.specs.Prelude.{◌≡◌};
ghost use Rattle.vdp_state.specs.Fresh.{fresh as fresh_state};

use vdp_lent::fresh;
use vdp_state::state::State;

// By value: so the memory that is to hold the state need not hold one before.
#[unsafe(no_mangle)]
pub extern "C" fn kuthbareen_fresh(pal: bool) -> State
    ensures { result ≡ fresh_state pal }
{
    fresh::kuthbareen_fresh(pal)
}
