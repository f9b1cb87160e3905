//! What a step of a routine does.

ghost use Rattle.std.specs.Prelude.{◌≡◌, ℕ, ◌<◌, ◌≤◌, cond, ◌==◌};
ghost use Rattle.rules.specs.Routine.{Accepted, Next, OperandsExist, region, node as node_of};
ghost use Rattle.rules.specs.Run.{result as given, counted, place, memory_after, point_after, mark};
ghost use Rattle.listing.specs.Forms.{routine_of};
ghost use Rattle.run.specs.Views.{of_memory};

use crate::memory::Memory;
use crate::step::Step;
use leakage::LeakageModel;
use listing::Routine;
use reach::{node_at, region_at};
use rules::{Node, Operator, Region};

// What an operator gives on two values.
pub(crate) fn result_of(operator: Operator, a: u32, b: u32) -> u32
    ensures { result ≡ given operator a b }
{
    match operator {
        Operator::Sum => a.wrapping_add(b),
        Operator::Difference => a.wrapping_sub(b),
        Operator::Product => a.wrapping_mul(b),
        Operator::And => a & b,
        Operator::Or => a | b,
        Operator::ExclusiveOr => a ^ b,
        Operator::LeftShift => a << (b % 32),
        Operator::RightShift => a >> (b % 32),
        Operator::Quotient => if b == 0 { 0 } else { a / b },
        Operator::Remainder => if b == 0 { a } else { a % b },
        Operator::Less => u32::from(a < b),
        Operator::Equal => u32::from(a == b),
    }
}

// The index that counts: one not below the length counts as 0.
pub(crate) fn counted_of(region: Region, index: u32) -> u32
    requires { Accepted region.start region.length }
    ensures is { result ≡ counted region index }
    ensures within { result < region.length }
{
    if index < region.length { index } else { 0 }
}

// The cell of an array's element, by the index that counts.
fn cell_of(routine: &Routine, array: u32, index: u32) -> usize
    requires { array < routine.now.listing.counts.arrays }
    ensures is { result ≡ place (region (routine_of routine.now.listing) array) index }
    ensures within { result < 512 }
{
    let region = region_at(routine, array as usize);
    (region.start + counted_of(region, index)) as usize
}

// The one of two scalars that a condition picks.
fn picked(condition: u32, then: u32, otherwise: u32) -> u32
    ensures { result ≡ cond (condition == 0) otherwise then }
{
    if condition == 0 { otherwise } else { then }
}

// The mark of an access, with the index that counts.
pub(crate) fn access_mark_of<M: LeakageModel>(
    model: M,
    routine: &Routine,
    array: u32,
    index: u32,
) -> u32
    requires { array < routine.now.listing.counts.arrays }
    ensures { result ≡ (M.leakage model).access_mark (region (routine_of routine.now.listing) array).start (region (routine_of routine.now.listing) array).length (counted (region (routine_of routine.now.listing) array) index) }
{
    let region = region_at(routine, array as usize);
    model.access_mark(region, counted_of(region, index))
}

// The arms of an if and a while, of a read and a write, stand apart: a step whose arms share blocks takes a sixth longer.

impl<'a> Step<'a> {
    // The step from the point. Its node is looked up here, once.
    pub(crate) fn at(routine: &'a Routine, point: u32) -> Step<'a>
        requires { point < routine.now.listing.counts.nodes }
        ensures routine { result.routine.now ≡ routine.now }
        ensures point { result.point ≡ point }
    {
        Step {
            routine,
            point,
            node: node_at(routine, point as usize),
        }
    }

    // The node: what it names exists, and it leads to no point past the end.
    fn node(&self) -> Node
        ensures is { result ≡ node_of (routine_of self.now.routine.now.listing) self.now.point }
        ensures operands { OperandsExist 24 self.now.routine.now.listing.counts.arrays result }
        ensures next { (q : ℕ) → Next result self.now.point q → q ≤ self.now.routine.now.listing.counts.nodes }
    {
        self.node
    }

    // Changes the memory as the node does.
    pub(crate) fn change(&self, memory: &mut Memory)
        ensures { of_memory memory.new ≡ memory_after (routine_of self.now.routine.now.listing) (node_of (routine_of self.now.routine.now.listing) self.now.point) (of_memory memory.old) }
    {
        let routine = self.routine;
        let scalars = &mut memory.scalars;
        match self.node() {
            Node::Constant { target, value } => scalars[target as usize] = value,
            Node::Move { target, source } => {
                scalars[target as usize] = scalars[source as usize];
            }
            Node::Operate {
                target,
                operator,
                left,
                right,
            } => {
                let value = result_of(operator, scalars[left as usize], scalars[right as usize]);
                scalars[target as usize] = value;
            }
            Node::Select {
                target,
                condition,
                then,
                otherwise,
            } => {
                let chosen = picked(scalars[condition as usize], then, otherwise);
                scalars[target as usize] = scalars[chosen as usize];
            }
            Node::Read {
                target,
                array,
                index,
            } => {
                let cell = cell_of(routine, array, scalars[index as usize]);
                scalars[target as usize] = memory.cells[cell];
            }
            Node::Write {
                array,
                index,
                value,
            } => {
                let cell = cell_of(routine, array, scalars[index as usize]);
                memory.cells[cell] = scalars[value as usize];
            }
            _ => {}
        }
    }

    // The point after the node.
    pub(crate) fn next(&self, memory: &Memory) -> u32
        ensures is { result ≡ point_after (node_of (routine_of self.now.routine.now.listing) self.now.point) self.now.point (of_memory memory.now) }
        ensures within { result ≤ self.now.routine.now.listing.counts.nodes }
    {
        let point = self.point;
        match self.node() {
            Node::If {
                condition,
                otherwise,
            } => if memory.scalars[condition as usize] == 0 {
                otherwise + 1
            } else {
                point + 1
            },
            Node::Else { end } => end,
            Node::While { condition, end } => if memory.scalars[condition as usize] == 0 {
                end + 1
            } else {
                point + 1
            },
            Node::EndWhile { head } => head,
            _ => point + 1,
        }
    }

    // The mark of a node's leak line.
    pub(crate) fn mark<M: LeakageModel>(&self, model: M, memory: &Memory) -> u32
        ensures { result ≡ mark (M.leakage model) (routine_of self.now.routine.now.listing) (node_of (routine_of self.now.routine.now.listing) self.now.point) (of_memory memory.now) }
    {
        let scalars = &memory.scalars;
        match self.node() {
            Node::Operate {
                operator,
                left,
                right,
                ..
            } => model.operator_mark(operator, scalars[left as usize], scalars[right as usize]),
            Node::Read { array, index, .. } => {
                access_mark_of(model, self.routine, array, scalars[index as usize])
            }
            Node::Write { array, index, .. } => {
                access_mark_of(model, self.routine, array, scalars[index as usize])
            }
            Node::If { condition, .. } => u32::from(scalars[condition as usize] != 0),
            Node::While { condition, .. } => u32::from(scalars[condition as usize] != 0),
            _ => 0,
        }
    }
}
