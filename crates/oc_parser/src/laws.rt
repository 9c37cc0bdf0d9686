//! Laws of loads and trees, each the contract of a function that does nothing.

ghost use Rattle.oc_parser.specs.Shallow.{LightIsShallow};

/// Where no token of a source has a load over 1,000, its tree is no deeper than 1,000.
pub fn light_trees_are_shallow()
    ensures { LightIsShallow }
{}
