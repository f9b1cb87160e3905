//! The subject's data: operators, nodes and the regions of arrays. What they mean stands in specs/, and what holds of that meaning in
//! `theorems`.
#![tactic(auto)]

mod nodes;
pub mod operators;
pub mod theorems;

/// What an operator node does to two values.
#[derive(Clone, Copy, Debug, PartialEq, Eq)]
pub enum Operator {
    Sum,
    Difference,
    Product,
    And,
    Or,
    ExclusiveOr,
    LeftShift,
    RightShift,
    Quotient,
    Remainder,
    Less,
    Equal,
}

/// The left or the right operand of an operator.
#[derive(Clone, Copy, Debug, PartialEq, Eq)]
pub enum Side {
    Left,
    Right,
}

/// One node of a routine. Scalars, arrays and other nodes are named by number; an `index` and a `value` to be written are scalars.
#[derive(Clone, Copy, Debug, PartialEq, Eq)]
pub enum Node {
    /// `target` becomes `value`, which is a number and no scalar.
    Constant {
        target: u32,
        value: u32,
    },
    /// `target` becomes `source`.
    Move {
        target: u32,
        source: u32,
    },
    /// `target` becomes what `operator` gives on `left` and `right`.
    Operate {
        target: u32,
        operator: Operator,
        left: u32,
        right: u32,
    },
    /// `target` becomes `then` if `condition` is not 0, and else `otherwise`.
    Select {
        target: u32,
        condition: u32,
        then: u32,
        otherwise: u32,
    },
    /// `target` becomes the element of `array` at `index`.
    Read {
        target: u32,
        array: u32,
        index: u32,
    },
    /// The element of `array` at `index` becomes `value`.
    Write {
        array: u32,
        index: u32,
        value: u32,
    },
    /// Goes on if `condition` is not 0, and else past node `otherwise`, its else.
    If {
        condition: u32,
        otherwise: u32,
    },
    /// Ends the first branch of an if, and goes to node `end`, the end of the if.
    Else {
        end: u32,
    },
    /// Ends the if at node `head`.
    EndIf {
        head: u32,
    },
    /// Goes on if `condition` is not 0, and else past node `end`, the end of the while.
    While {
        condition: u32,
        end: u32,
    },
    /// Ends the body of the while at node `head`, and goes back to it.
    EndWhile {
        head: u32,
    },
}

/// The cells of an array: the first, and how many there are.
#[derive(Clone, Copy, Debug, PartialEq, Eq)]
pub struct Region {
    pub start: u32,
    pub length: u32,
}
