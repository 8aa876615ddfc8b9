//! The laws of vectors, on calls that do nothing.
ghost use Rattle.rrb_core.specs.Vector.{VectorsStay, ElementsStay, VectorsOfVectorsStay, SameVectorsFollow};
ghost use Rattle.rrb_core.specs.Build.{SameRowIsAsGood, SameRowIsAsThick};

use node_heap::Heap;

/// A vector stays, with its elements, wherever all that its root reaches is the same.
pub fn vectors_stay<T>(heap: &Heap<T>)
    ensures { VectorsStay T }
{
    // The law is about definitions alone; the heap only names the type.
    let _ = heap;
}

/// The same of a vector of vectors, with the elements of each. All that an element reaches stays too, whatever the element is.
pub fn vectors_of_vectors_stay<T>()
    ensures elements { ElementsStay T }
    ensures vectors { VectorsOfVectorsStay T }
{}

/// A vector that stays in one step, and then in the next, stays in both together.
pub fn same_vectors_follow<T>()
    ensures { SameVectorsFollow T }
{}

/// Where two links name the same row, it is as well formed under the one as under the other, as thick, and has the same sums
/// and elements.
pub fn same_row_is_as_good<T>()
    ensures good { SameRowIsAsGood T }
    ensures thick { SameRowIsAsThick T }
{}
