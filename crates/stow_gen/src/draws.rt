//! Numbers by chance, the same for the same start.
ghost use Rattle.std.specs.Prelude.{◌≡◌, ◌<◌, ◌≤◌};
ghost use Rattle.stow_gen.specs.Draws.{after_lot, below, lot, next};

/// What is drawn of a container: its calls, its weight in kilograms, and whether it is cooled.
#[derive(Clone, Copy)]
pub struct Lot {
    pub load: u32,
    pub dest: u32,
    pub kg: u32,
    pub cooled: bool,
}

/// Draws a number below `n`.
#[tactic(auto, unfolding(crate::specs::Draws::next, crate::specs::Draws::below))]
fn draw(state: &mut u32, n: u32) -> u32
    requires { 0 < n }
    ensures state { state.new ≡ next state.old }
    ensures drawn { result ≡ below n state.new }
    ensures low { result < n }
{
    let next = (u64::from(*state) * 1_103_515_245 + 12_345) % 2_147_483_648;
    *state = next as u32;
    (*state / 65_536) % n
}

/// Draws what a container is.
#[tactic(auto, unfolding(crate::specs::Draws::lot))]
pub fn draw_lot(state: &mut u32) -> Lot
    ensures state { state.new ≡ after_lot state.old }
    ensures drawn { result ≡ lot state.old }
{
    let load = 1 + draw(state, 5);
    let dest = load + 1 + draw(state, 6 - load);
    let kg = 5_000 * (1 + draw(state, 5));
    let cooled = draw(state, 20) == 0;
    Lot {
        load,
        dest,
        kg,
        cooled,
    }
}
