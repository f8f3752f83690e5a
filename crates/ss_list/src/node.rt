//! A node, which is in the chain or free.
ghost use Rattle.std.specs.Prelude.{◌≡◌, ◌<◌, ℕ, length, IsSome, Some, None};
ghost use Rattle.std.specs.Borrow.{Lends, sem};
ghost use Rattle.ss_list.specs.Nodes.{node_at, value_at, SameElsewhere};

/// The place that stands for both ends of a chain: before the first node, and after the last.
pub(crate) const END: u32 = u32::MAX;

/// One node. In the chain its links lead to its neighbours, and it has a value.
/// A free node has none, and its `next` leads to the free node that is used after it.
#[derive(Drop)]
pub(crate) struct Node<T> {
    pub(crate) prev: u32,
    pub(crate) next: u32,
    pub(crate) value: Option<T>,
}

impl<T> Node<T> {
    ghost use Rattle.ss_list.specs.contracts.node.Node.{the_row};
    ghost use Rattle.ss_list.specs.Nodes.{with_value};

    pub(crate) fn value_mut(&mut self) -> &mut T
        requires { IsSome self.old.value }
        ensures* lends { sem 𝓛 (Lends (the_row T.row) T.row self.entry result (with_value self.old)) }
        ensures value { self.old.value ≡ Some result.now }
    {
        match &mut self.value {
            Some(value) => value,
            None => unreachable!(),
        }
    }
}

/// Takes the value out of the node at `place`, and hangs the node before the free node `free`.
pub(crate) fn vacate<T>(nodes: &mut [Node<T>], place: u32, free: u32) -> T
    requires node { place < length nodes.old }
    requires value { IsSome (value_at nodes.old place) }
    ensures value { value_at nodes.old place ≡ Some result }
    ensures next { (node_at nodes.new place).next ≡ free }
    ensures blank { value_at nodes.new place ≡ None }
    ensures elsewhere { SameElsewhere nodes.old nodes.new place }
{
    let node = &mut nodes[place as usize];
    node.next = free;
    node.value.take().unwrap()
}

/// Puts a value into the node at `place`, which has none, and returns the free node that hung after it.
pub(crate) fn occupy<T>(nodes: &mut [Node<T>], place: u32, value: T) -> u32
    requires node { place < length nodes.old }
    requires blank { value_at nodes.old place ≡ None }
    ensures next { result ≡ (node_at nodes.old place).next }
    ensures value { value_at nodes.new place ≡ Some value }
    ensures elsewhere { SameElsewhere nodes.old nodes.new place }
{
    let node = &mut nodes[place as usize];
    match node.value.replace(value) {
        None => node.next,
        Some(_) => unreachable!(),
    }
}
