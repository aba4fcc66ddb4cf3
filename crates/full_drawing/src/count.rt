// The count of a full drawing: clauses times samples.
ghost use Rattle.std.specs.Prelude.{◌≡◌, ◌*◌, ◌≤◌};
ghost use Rattle.rules.specs.Tapes.{clause_limit};
ghost use Rattle.rules.specs.Drawings.{size_limit};

pub fn full_count(clauses: usize, width: u32, height: u32, layers: u32) -> u64
    requires clauses_le_clause_limit { clauses ≤ clause_limit }
    requires width_le_size_limit { (width ≤ size_limit) × (height ≤ size_limit) × (layers ≤ size_limit) }
    ensures { result ≡ clauses * (width * (height * layers)) }
{
    clauses as u64 * (width as u64 * (height as u64 * layers as u64))
}
