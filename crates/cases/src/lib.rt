// The bench cases of document 01, by the definitions alone: the proved table, what the inverter prints, and the claims over all
// models and lists of orders, used on the inverter; its dump; a bus and a register whose drivers turn off; delays of 0; inertial
// delays; and a line with its own pair table.
#![tactic(auto)]

ghost use Rattle.std.specs.Prelude.{◌≡◌, length};
ghost use Rattle.values.specs.Bench.{Holds};
ghost use Rattle.cases.specs.Table.{rows, TableWhole};
ghost use Rattle.cases.specs.Arithmetic.{DivisionUsed};
ghost use Rattle.cases.specs.Faults.{FaultsUsed};
ghost use Rattle.cases.specs.Inverter.{inverter_lines, InverterPlayed};
ghost use Rattle.cases.specs.Moves.{InverterMoved};
ghost use Rattle.cases.specs.Waves.{inverter_dump, InverterDumped};
ghost use Rattle.cases.specs.Guarded.{guarded_rows, GuardedPlayed};
ghost use Rattle.cases.specs.Delays.{delay_rows, DelaysPlayed, DelaysUsed};
ghost use Rattle.cases.specs.Inertial.{inertial_cases, InertialPlayed};
ghost use Rattle.cases.specs.OwnTable.{own_rows, OwnTablePlayed, OwnTableUsed};
ghost use Rattle.cases.specs.Claims.{settling, tally, InverterDetermined, SharedDetermined, FilteredDetermined, InverterLaws, InverterSets};

// How many rows the proved table has; that they hold, that none is missing, and the laws of division and of faults used once.
pub fn bench_rows() -> usize
    ensures value { result ≡ length rows }
    ensures holds { Holds rows }
    ensures table_whole { TableWhole }
    ensures division_used { DivisionUsed }
    ensures faults_used { FaultsUsed }
{
    129
}

// How many lines are printed of the inverter; that it is accepted and these are printed, what refused orders leave of it, and that the
// list of before moves over to its orders.
pub fn inverter_lines() -> usize
    ensures value { result ≡ length inverter_lines }
    ensures inverter_played { InverterPlayed }
    ensures inverter_laws { InverterLaws }
    ensures inverter_moved { InverterMoved }
{
    8
}

// How many lines the inverter's dump has; that these are dumped, and what is read back of them.
pub fn dump_lines() -> usize
    ensures value { result ≡ length inverter_dump }
    ensures inverter_dumped { InverterDumped }
{
    12
}

// How many picks the inverter's orders make; that picks in another order, and picks of sets, are as many and lead to the same end.
pub fn inverter_picks() -> usize
    ensures value { result ≡ (tally settling).picks }
    ensures inverter_determined { InverterDetermined }
    ensures inverter_sets { InverterSets }
{
    6
}

// How many rows the table of the shared bus and register has; that they hold, and that picks in another order turn the same drivers off.
pub fn guarded_rows() -> usize
    ensures value { result ≡ length guarded_rows }
    ensures holds { Holds guarded_rows }
    ensures guarded_played { GuardedPlayed }
    ensures shared_determined { SharedDetermined }
{
    9
}

// How many rows the table of delays of 0 has; that they hold, and the laws of the earlier values used once.
pub fn delay_rows() -> usize
    ensures value { result ≡ length delay_rows }
    ensures holds { Holds delay_rows }
    ensures delays_played { DelaysPlayed }
    ensures delays_used { DelaysUsed }
{
    15
}

// How many cases of an inertial delay are played; that they leave what they should, when a ninth transaction is a fault, and that
// picks in another order leave the same pending.
pub fn inertial_cases() -> usize
    ensures value { result ≡ length inertial_cases }
    ensures inertial_played { InertialPlayed }
    ensures filtered_determined { FilteredDetermined }
{
    8
}

// How many rows the table of a line with its own pair table has; that they hold, and that two numberings of its drivers give one value.
pub fn own_table_rows() -> usize
    ensures value { result ≡ length own_rows }
    ensures holds { Holds own_rows }
    ensures own_table_played { OwnTablePlayed }
    ensures own_table_used { OwnTableUsed }
{
    12
}
