//! Laws of maps and sets, as the clauses of functions that do nothing.
ghost use Rattle.champ_kinds.specs.Laws.{ContainersStay, MapsStay, SetsStay, MapsReach, SetsReach, RootHasOneMap, MapTakesAnyOrder, EqualMapsHaveEqualTrees, EqualTreesAreOfOneMap, SimilarMapsHaveSimilarTrees, RootHasOneSet, SetTakesAnyOrder, EqualSetsHaveEqualTrees, EqualTreesAreOfOneSet, SimilarSetsHaveSimilarTrees};

use elem_core::Element;
use node_heap::Heap;

/// A map or a set stays wherever all that its root reaches is the same, and so where every row stays. A map's root reaches
/// the value of each key, and a set's the cell of each key.
pub fn containers_stay<T>(heap: &Heap<T>)
    ensures stay { ContainersStay T }
    ensures maps { MapsStay T }
    ensures sets { SetsStay T }
    ensures maps_reach { MapsReach T }
    ensures sets_reach { SetsReach T }
{
    // The heap is there for its type alone: the laws speak of every heap.
    let _ = heap;
}

/// A root has one map, whose bindings stand in any order. Maps of equal contents by as many bits unfold to equal trees, and
/// only they do, whatever edits led to them and whatever heaps they stand in; where the contents are equal but for values
/// that the order calls equal, so are the trees.
pub fn maps_follow_contents<T: Element>(heap: &Heap<T>)
    ensures one { RootHasOneMap T.cmp T.code_of }
    ensures order { MapTakesAnyOrder T.cmp T.code_of }
    ensures equal { EqualMapsHaveEqualTrees T.cmp T.code_of }
    ensures only { EqualTreesAreOfOneMap T.cmp T.code_of }
    ensures similar { SimilarMapsHaveSimilarTrees T.cmp T.code_of }
{
    // The heap is there for its type alone: the laws speak of every heap.
    let _ = heap;
}

/// The same of sets, whose contents are their keys.
pub fn sets_follow_contents<T: Element>(heap: &Heap<T>)
    ensures one { RootHasOneSet T.cmp T.code_of }
    ensures order { SetTakesAnyOrder T.cmp T.code_of }
    ensures equal { EqualSetsHaveEqualTrees T.cmp T.code_of }
    ensures only { EqualTreesAreOfOneSet T.cmp T.code_of }
    ensures similar { SimilarSetsHaveSimilarTrees T.cmp T.code_of }
{
    // The heap is there for its type alone: the laws speak of every heap.
    let _ = heap;
}
