// The fresh state (definition, The state).
ghost use Rattle.std.specs.Prelude.{◌≡◌};
ghost use Rattle.vdp_state.specs.Fresh.{fresh as fresh_state};

use crate::good::LAST_LINE;
use crate::kind::IDLE;
use crate::state::{Control, Flags, Port, State, Timing};

#[tactic(auto, unfolding(crate::specs::Fresh::fresh))]
pub fn fresh(pal: bool) -> State
    ensures { result ≡ fresh_state pal }
{
    State {
        registers: [0; 24],
        cram: [0; 64],
        vsram: [0; 40],
        control: Control {
            port: Port {
                address: 0,
                code: 0,
                pending: false,
            },
            dma: IDLE,
            flags: Flags {
                overflow: false,
                collision: false,
                used_up: false,
            },
            timing: Timing {
                line: LAST_LINE,
                counter: 0,
                vertical: false,
                horizontal: false,
            },
        },
        pal,
    }
}
