// Why a call is refused.
ghost use Rattle.std.specs.Prelude.{◌≡◌, Some};
ghost use Rattle.bench.specs.Refusals.{number_of, place_of, text_of};

use std::error::Error;
use std::fmt;

#[derive(Clone, Copy, Debug, PartialEq, Eq)]
pub enum Refusal {
    // the workspace has too few cells
    WorkspaceTooShort,
    // the bench has no shelf of that number
    NoSuchShelf,
    // there are more than 512 rules
    TooManyRules,
    // the rule of this index is out of shape
    RuleOutOfShape(usize),
    // there are more than 1,024 different sets of states
    TooManySets,
    // there are more than 32 classes
    TooManyClasses,
    // the list for nodes has fewer than 1,024 places
    NodeListTooShort,
    // there is no node, or there are more than 1,024
    NodeCount,
    // the node of this number is out of shape
    NodeOutOfShape(usize),
    // the label of the node of this number is outside the kind, or its atom is not in the table
    UnknownLabel(usize),
}

impl Refusal {
    // The number of the refusal. By cases: cases that name a place have no discriminant.
    pub fn number(self) -> u32
        ensures { result ≡ number_of self }
    {
        match self {
            Refusal::WorkspaceTooShort => 30,
            Refusal::NoSuchShelf => 31,
            Refusal::TooManyRules => 32,
            Refusal::RuleOutOfShape(_) => 33,
            Refusal::TooManySets => 34,
            Refusal::TooManyClasses => 35,
            Refusal::NodeListTooShort => 40,
            Refusal::NodeCount => 41,
            Refusal::NodeOutOfShape(_) => 42,
            Refusal::UnknownLabel(_) => 43,
        }
    }

    // The rule or the node at fault. A number of the format that hosts read: 0 where the refusal names none; `number` tells
    // that from rule 0 and node 0.
    pub fn place(self) -> usize
        ensures { result ≡ place_of self }
    {
        match self {
            Refusal::RuleOutOfShape(i) | Refusal::NodeOutOfShape(i) | Refusal::UnknownLabel(i) => i,
            _ => 0,
        }
    }
}

impl fmt::Display for Refusal {
    ghost output = { λ refusal. Some (text_of refusal) };

    fn fmt<W: fmt::Write>(&self, f: &mut fmt::Formatter<W>) -> fmt::Result {
        match *self {
            Refusal::WorkspaceTooShort => f.write_str("too few cells in the workspace"),
            Refusal::NoSuchShelf => f.write_str("no such shelf"),
            Refusal::TooManyRules => f.write_str("more than 512 rules"),
            Refusal::RuleOutOfShape(rule) => write!(f, "rule {rule} is out of shape"),
            Refusal::TooManySets => f.write_str("more than 1024 sets of states"),
            Refusal::TooManyClasses => f.write_str("more than 32 classes"),
            Refusal::NodeListTooShort => f.write_str("fewer than 1024 places for nodes"),
            Refusal::NodeCount => f.write_str("no node, or more than 1024"),
            Refusal::NodeOutOfShape(node) => write!(f, "node {node} is out of shape"),
            Refusal::UnknownLabel(node) => write!(f, "no atom for the label of node {node}"),
        }
    }
}

impl Error for Refusal {}

#[cfg(test)]
mod tests {
    use super::*;
    use std::test::Fail;

    #[test]
    fn refusals_print_themselves(rt: HostRuntime) -> Result<(), Fail> {
        let heap = rt.alloc();
        let rule = Refusal::RuleOutOfShape(7).to_string(heap)?;
        assert_eq!(rt; rule.as_str(), "rule 7 is out of shape");
        let count = Refusal::NodeCount.to_string(heap)?;
        assert_eq!(rt; count.as_str(), "no node, or more than 1024");
        assert_eq!(rt; Refusal::RuleOutOfShape(7).number(), 33);
        assert_eq!(rt; Refusal::UnknownLabel(0).place(), 0);
        Ok(())
    }
}
