// Worked figures: small cases of the arithmetic, of the panel filter and of its sheets, proved over the definitions that the other crates' contracts use.
#![tactic(auto)]

ghost use Rattle.figures.specs.Figures.{WorkedFigures};

// Every worked figure stands: it is all in the contract.
pub fn worked_figures() -> u8
    ensures { WorkedFigures }
{
    0
}
