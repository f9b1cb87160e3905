//! What a node does, in words.

ghost use Rattle.std.specs.Prelude.{◌≡◌, IfOk, string_bytes};
ghost use Rattle.texts.specs.Words.{node_letter, node_words, operator_sign};

use rules::{Node, Operator};
use std::alloc::{AllocError, Global};

/// The letter of the node's line.
pub fn letter(node: Node) -> &'static str
    ensures { result.now ≡ node_letter node }
{
    match node {
        Node::Constant { .. } => "K",
        Node::Move { .. } => "M",
        Node::Operate { .. } => "O",
        Node::Select { .. } => "Q",
        Node::Read { .. } => "R",
        Node::Write { .. } => "W",
        Node::If { .. } => "I",
        Node::Else { .. } => "E",
        Node::EndIf { .. } => "F",
        Node::While { .. } => "L",
        Node::EndWhile { .. } => "J",
    }
}

// Operators are of a crate that has no texts, so no Display of them stands here.

/// The sign of the operator, or its name.
pub fn sign(operator: Operator) -> &'static str
    ensures { result.now ≡ operator_sign operator }
{
    match operator {
        Operator::Sum => "+",
        Operator::Difference => "-",
        Operator::Product => "*",
        Operator::And => "and",
        Operator::Or => "or",
        Operator::ExclusiveOr => "xor",
        Operator::LeftShift => "<<",
        Operator::RightShift => ">>",
        Operator::Quotient => "/",
        Operator::Remainder => "%",
        Operator::Less => "<",
        Operator::Equal => "=",
    }
}

/// What the node does.
pub fn words(heap: Global, node: Node) -> Result<String, AllocError>
    ensures { IfOk result (λ s. string_bytes s ≡ node_words node) }
{
    match node {
        Node::Constant { target, value } => format!(in heap; "scalar {target} := {value}"),
        Node::Move { target, source } => format!(in heap; "scalar {target} := scalar {source}"),
        Node::Operate {
            target,
            operator,
            left,
            right,
        } => {
            let sign = sign(operator);
            format!(in heap; "scalar {target} := scalar {left} {sign} scalar {right}")
        }
        Node::Select {
            target,
            condition,
            then,
            otherwise,
        } => format!(in heap;
            "scalar {target} := if scalar {condition} then scalar {then} else scalar {otherwise}"
        ),
        Node::Read {
            target,
            array,
            index,
        } => format!(in heap; "scalar {target} := array {array} [ scalar {index} ]"),
        Node::Write {
            array,
            index,
            value,
        } => format!(in heap; "array {array} [ scalar {index} ] := scalar {value}"),
        Node::If { condition, .. } => format!(in heap; "if scalar {condition}"),
        Node::Else { .. } => String::from_str(heap, "else"),
        Node::EndIf { .. } => String::from_str(heap, "end if"),
        Node::While { condition, .. } => format!(in heap; "while scalar {condition}"),
        Node::EndWhile { .. } => String::from_str(heap, "end while"),
    }
}
