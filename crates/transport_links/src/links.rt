// Links written into rows of heads, capacities and costs, two places each.
ghost use Rattle.std.specs.Prelude.{◌≡◌, ◌≤◌, ◌<◌, length};
ghost use Rattle.numbers.specs.Lists.{over};
ghost use Rattle.transport_theory.specs.Links;
ghost use Rattle.transport_theory.proofs.LinkRows.{link_at, Space};
ghost use Rattle.transport_theory.proofs.Writing.{room_for, wrote, write};
ghost use Rattle.transport_links.specs.Lent.{same_rows, link_of, links_in, Costed, Roomy, Putting};

use flow_check::Edge;
use numbers::infinity;
use transport_theory::Masses;

// What the links are written into: a head, a capacity and a cost for each link, and for its reverse after it.
#[derive(Debug, Drop)]
pub struct LinkRows<'a> {
    pub heads: &'a mut [u32],
    pub caps: &'a mut [f64],
    pub prices: &'a mut [f64],
}

// Writes a link at place e, and its reverse after it.
fn put(rows: &mut LinkRows, e: usize, link: Edge)
    requires space { Space rows.old.heads.now rows.old.caps.now rows.old.prices.now e }
    requires from_bound { (link.from ≤ 65) × (link.to ≤ 65) }
    ensures put { Putting (link_of link) rows.old e rows.new }
    ensures same { same_rows rows.old rows.new }
{
    let b = e + 1;
    rows.heads[e] = link.to as u32;
    rows.heads[b] = link.from as u32;
    rows.caps[e] = link.cap;
    rows.caps[b] = 0.0;
    rows.prices[e] = link.cost;
    rows.prices[b] = -link.cost;
}

// The k-th link: one from the source, one to the sink, or one between two masses.
fn link_at(of: &Masses, k: usize) -> Edge
    requires costed { Costed of.now }
    requires k_in_bounds { k < length (links_in of.now) }
    ensures is { link_of result ≡ link_at (links_in of.now) k }
    ensures ends { (result.from ≤ 65) × (result.to ≤ 65) }
{
    let m = of.left.len();
    let n = of.right.len();
    let source = m + n;
    if k < m {
        return Edge {
            from: source,
            to: k,
            cap: of.left[k],
            cost: 0.0,
        };
    }
    if k < source {
        return Edge {
            from: k,
            to: source + 1,
            cap: of.right[k - m],
            cost: 0.0,
        };
    }
    let cell = k - source;
    Edge {
        from: cell / n,
        to: m + cell % n,
        cap: infinity(),
        cost: of.costs[cell],
    }
}

// Writes all links, in the order in which they are added.
fn put_links(of: &Masses, rows: &mut LinkRows)
    requires { Roomy of.now rows.old }
    ensures heads { rows.new.heads.now ≡ over (Links.heads (links_in of.now)) rows.old.heads.now }
    ensures caps { rows.new.caps.now ≡ over (Links.caps (links_in of.now)) rows.old.caps.now }
    ensures prices { rows.new.prices.now ≡ over (Links.prices (links_in of.now)) rows.old.prices.now }
    ensures same { same_rows rows.old rows.new }
{
    let m = of.left.len();
    let n = of.right.len();
    for k in 0..m + n + m * n {
        put(rows, k + k, link_at(of, k));
    }
}

// A cost for each cell, and so many places in each row.
fn has_room(of: &Masses, places: usize, rows: &LinkRows) -> bool
    requires { (length of.now.left.now ≤ 32) × (length of.now.right.now ≤ 32) }
    ensures { result ≡ room_for places (length of.now.left.now) (length of.now.right.now) (length of.now.costs.now) (length rows.now.heads.now) (length rows.now.caps.now) (length rows.now.prices.now) }
{
    of.left.len() * of.right.len() <= of.costs.len()
        && places <= rows.heads.len()
        && places <= rows.caps.len()
        && places <= rows.prices.len()
}

// Writes the links of `transport` into lent rows; gives how many places they take. Where the rows have no room, or costs are missing, nothing is written.
pub fn write_links(of: &Masses, rows: &mut LinkRows) -> Option<usize>
    ensures written { wrote result rows.new.heads.now rows.new.caps.now rows.new.prices.now ≡ write of.now.left.now of.now.right.now of.now.costs.now rows.old.heads.now rows.old.caps.now rows.old.prices.now }
    ensures same { same_rows rows.old rows.new }
{
    let places = of.places()?;
    if !has_room(of, places, rows) {
        return None;
    }
    put_links(of, rows);
    Some(places)
}
