// The bench: a node machine, and that a store's meaning alone is enough to agree with it. The contract of each law is a theorem.
#![tactic(auto)]

pub mod bench;
pub mod call;
pub mod fault;
mod holds;
pub mod tests;

ghost use Rattle.bench.specs.Examples.{Worked};
ghost use Rattle.bench.specs.Laws as law;

// The count of reached nodes is a count of what is found from the roots.
pub fn pass_right()
    ensures { law.PassRight }
{}

// A store with no hold out and empty roots stand for the machine at its start.
pub fn start_stands()
    ensures { law.StartStands }
{}

// Each call keeps it so: first one that changes nothing.
pub fn rest_stands()
    ensures { law.RestStands }
{}

pub fn release_stands()
    ensures { law.ReleaseStands }
{}

pub fn copy_stands()
    ensures { law.CopyStands }
{}

pub fn part_stands()
    ensures { law.PartStands }
{}

pub fn make_stands()
    ensures { law.MakeStands }
{}

pub fn rebuild_stands()
    ensures { law.RebuildStands }
{}

// Pictures that agree look alike.
pub fn pictures_alike()
    ensures { law.PicturesAlike }
{}

pub fn bench_alike()
    ensures { law.BenchAlike }
{}

// A refusal for want of a cell is exact.
pub fn make_exact()
    ensures { law.MakeExact }
{}

pub fn rebuild_exact()
    ensures { law.RebuildExact }
{}

pub fn make_open()
    ensures { law.MakeOpen }
{}

pub fn rebuild_open()
    ensures { law.RebuildOpen }
{}

// What a bench may ask of its store.
pub fn may_ask()
    ensures { law.MayAsk }
{}

// Each node has as many links as its kind, and so has each reached cell.
pub fn made_shaped()
    ensures { law.MadeShaped }
{}

pub fn cells_shaped()
    ensures { law.CellsShaped }
{}

// Every bench in order stands for some machine.
pub fn ordered_stands()
    ensures { law.OrderedStands }
{}

// Nodes are never altered.
pub fn nodes_grow()
    ensures { law.NodesGrow }
{}

// Lists of calls worked by hand: the machine computes the same answers.
pub fn worked_examples()
    ensures { Worked }
{}
