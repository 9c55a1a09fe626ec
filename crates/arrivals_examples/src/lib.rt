// Worked examples of arrival books: the edges as theorems, and histories as tests on both books.
#![tactic(auto)]

ghost use Rattle.arrivals_examples.specs.Edges.{HalfEdge, DepthEdge};

// The last numbers that are still fresh to a place that has noted one number.
#[derive(Clone, Copy)]
pub struct Edges {
    // ahead of 5, in both books
    pub ahead_of_5: u32,
    // behind 100, in a mask book
    pub mask_behind_100: u32,
    // behind 100, in a list book
    pub list_behind_100: u32,
}

pub fn worked_edges() -> Edges
    ensures half { HalfEdge 64 result.ahead_of_5 × HalfEdge 24 result.ahead_of_5 }
    ensures mask { DepthEdge 64 result.mask_behind_100 }
    ensures list { DepthEdge 24 result.list_behind_100 }
{
    Edges {
        ahead_of_5: 8_388_612,
        mask_behind_100: 37,
        list_behind_100: 77,
    }
}

#[cfg(test)]
mod tests;
