// What the code promises, as theorems that the check asks for. Nothing here is run.
ghost use Rattle.std.specs.Prelude.{◌≡◌, ℕ, ◌%◌};
ghost use Rattle.code.specs.Neighbours.{Tournament, published};
ghost use Rattle.code.specs.Laws.{AnyTwo, AnyTwoBlocks, Half, DarkHalf, PutRule, SolveTwo, SolveOne};
ghost use Rattle.code.specs.Examples.{Examples};

// All but the last two hold for every width and every rule of right neighbours with the tournament law; the published
// rule has that law at every odd width, and gives what the worked examples say.
pub fn laws_hold()
    ensures any_two { AnyTwo }
    ensures any_two_blocks { AnyTwoBlocks }
    ensures half { Half }
    ensures dark_half { DarkHalf }
    ensures put_rule { PutRule }
    ensures solve_two { SolveTwo }
    ensures solve_one { SolveOne }
    ensures odd_widths { (k : ℕ) → k % 2 ≡ 1 → Tournament k (published k) }
    ensures examples { Examples published }
{}
