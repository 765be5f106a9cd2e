// Loops without delay in small models, by the definitions alone: chains, the inverter, which has none, and a model that meets the bound.
#![tactic(auto)]

ghost use Rattle.std.specs.Prelude.{◌≡◌};
ghost use Rattle.bounded.specs.Bounded.{delta_steps};
ghost use Rattle.loop_cases.specs.LoopCases.{steppers, step_orders, LoopsShown};

// How many delta steps two processes without a loop make at one time; and which chains the small models have.
pub fn most_steps() -> usize
    ensures value { result ≡ delta_steps steppers 1 step_orders }
    ensures loops_shown { LoopsShown }
{
    3
}
