// Each function does nothing; its contract is a theorem about trees and their automata.
ghost use Rattle.trees.specs.Theorems.{FewestStates, OneNormalForm, RoundsAreHeights, ApartNeedsStates, OneNumbering, OnePairing};
ghost use Rattle.trees.specs.Theorems.{RefinedClasses, SeparateClasses, StableClasses, SetsByRules};
ghost use Rattle.trees.specs.Theorems.{NoSplit, FirstSplitTells, OneTree, LinesAnew, NumberedOverLabels, NormalOverLabels};
ghost use Rattle.trees.specs.Examples.{Examples};

pub fn fewest_states()
    ensures { FewestStates }
{}

pub fn one_normal_form()
    ensures { OneNormalForm }
{}

pub fn rounds_are_heights()
    ensures { RoundsAreHeights }
{}

pub fn apart_needs_states()
    ensures { ApartNeedsStates }
{}

pub fn one_numbering()
    ensures { OneNumbering }
{}

pub fn one_pairing()
    ensures { OnePairing }
{}

pub fn refined_classes()
    ensures { RefinedClasses }
{}

pub fn separate_classes()
    ensures { SeparateClasses }
{}

pub fn stable_classes()
    ensures { StableClasses }
{}

pub fn sets_by_rules()
    ensures { SetsByRules }
{}

pub fn no_split()
    ensures { NoSplit }
{}

pub fn first_split()
    ensures { FirstSplitTells }
{}

pub fn one_tree()
    ensures { OneTree }
{}

pub fn lines_anew()
    ensures { LinesAnew }
{}

pub fn numbered_over_labels()
    ensures { NumberedOverLabels }
{}

pub fn normal_over_labels()
    ensures { NormalOverLabels }
{}

pub fn examples_stand()
    ensures { Examples }
{}
