// Worked figures of the rules, as one theorem over one table.
#![tactic(auto)]

ghost use Rattle.figures.specs.Figures.{FiguresHold};

/// Every figure of the table follows from the definitions that the engine's contracts cite.
pub fn figures_stand()
    ensures { FiguresHold }
{}
