//! Graphs with the ranks, orders and cycles that were worked out by hand.
ghost use Rattle.std.specs.Prelude.{◌<◌, ◌↔◌, All, IsTrue};
ghost use Rattle.graph_rank.specs.Rows.{InRange};

use crate::{
    Graph, GraphFault, cycles_come_round, rank_graph, ranked_has_no_cycle, rankings_are_sorted,
    ranks_are_unique,
};
use std::test::Fail;

fn graph_of(rt: HostRuntime, rows: &[&[u32]]) -> Result<Graph, Fail> {
    let mut graph = Graph::new(rt.alloc());
    for needs in rows {
        if graph.len() == u32::MAX {
            return Err(Fail::new("too many rows"));
        }
        graph.add_row(needs)?;
    }
    Ok(graph)
}

#[test]
fn rows_are_as_they_were_added(rt: HostRuntime) -> Result<(), Fail> {
    let graph = graph_of(rt, &[&[1, 1], &[], &[0]])?;
    assert_eq!(rt; graph.len(), 3);
    assert_eq!(rt; graph.row(0), [1, 1].as_slice());
    assert_eq!(rt; graph.row(1), [].as_slice());
    assert_eq!(rt; graph.row(2), [0].as_slice());
    Ok(())
}

// Whether each node that is named is there, which the ranking asks for.
fn is_closed(graph: &Graph) -> bool
    ensures { IsTrue result → InRange graph.now }
{
    'nodes: for node in 0..graph.len() {
        if !all_below(graph.row(node), graph.len()) {
            return false;
        }
    }
    true
}

fn all_below(needs: &[u32], bound: u32) -> bool
    ensures { IsTrue result ↔ All (λ d. d < bound) needs.now }
{
    needs.iter().all(|need| *need < bound)
}

#[derive(Drop)]
struct Ranked<'a> {
    rows: &'a [&'a [u32]],
    ranks: &'a [u32],
    order: &'a [u32],
}

#[test]
fn ranks_and_orders(rt: HostRuntime) -> Result<(), Fail> {
    ranks_are_unique();
    rankings_are_sorted();
    ranked_has_no_cycle();
    for case in [
        Ranked {
            rows: &[],
            ranks: &[],
            order: &[],
        },
        Ranked {
            rows: &[&[1, 2], &[2], &[], &[0, 2, 2], &[]],
            ranks: &[2, 1, 0, 3, 0],
            order: &[2, 4, 1, 0, 3],
        },
        Ranked {
            rows: &[&[], &[0], &[0], &[2, 1]],
            ranks: &[0, 1, 1, 2],
            order: &[0, 1, 2, 3],
        },
        Ranked {
            rows: &[&[3], &[3], &[], &[2]],
            ranks: &[2, 2, 0, 1],
            order: &[2, 3, 0, 1],
        },
    ] {
        let graph = graph_of(rt, case.rows)?;
        assert!(rt; is_closed(&graph));
        let Ok(order) = rank_graph(rt.alloc(), &graph) else {
            return Err(Fail::new("no order"));
        };
        for (node, rank) in case.ranks.iter().enumerate() {
            assert!(rt; node < graph.len() as usize);
            assert_eq!(rt; order.rank_of(node as u32), *rank);
        }
        assert_eq!(rt; order.len() as usize, case.order.len());
        for (k, node) in case.order.iter().enumerate() {
            assert!(rt; k < order.len() as usize);
            assert_eq!(rt; order.at(k as u32), *node);
        }
    }
    Ok(())
}

#[derive(Drop)]
struct Circular<'a> {
    rows: &'a [&'a [u32]],
    cycle: &'a [u32],
}

#[test]
fn the_one_cycle(rt: HostRuntime) -> Result<(), Fail> {
    cycles_come_round();
    for case in [
        Circular {
            rows: &[&[0]],
            cycle: &[0],
        },
        Circular {
            rows: &[&[], &[2], &[1]],
            cycle: &[1, 2],
        },
        Circular {
            rows: &[&[3], &[], &[1, 3], &[5, 2], &[], &[3]],
            cycle: &[3, 2],
        },
        Circular {
            rows: &[&[1], &[2], &[3, 1], &[2]],
            cycle: &[1, 2],
        },
        Circular {
            rows: &[&[2], &[1], &[0]],
            cycle: &[0, 2],
        },
    ] {
        let graph = graph_of(rt, case.rows)?;
        assert!(rt; is_closed(&graph));
        match rank_graph(rt.alloc(), &graph) {
            Err(GraphFault::Cycle(nodes)) => assert_eq!(rt; nodes.as_slice(), case.cycle),
            _ => return Err(Fail::new("no cycle")),
        }
    }
    Ok(())
}
