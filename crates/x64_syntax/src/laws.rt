// Laws over the definitions, which the layers above cite.

ghost use Rattle.std.specs.Prelude.{◌≡◌, Contains, Some};
ghost use Rattle.x64_syntax.specs.declared.operations.Operation.{Operation as AnOperation};
ghost use Rattle.x64_syntax.specs.declared.places.Reg.{Reg as AReg};
ghost use Rattle.x64_syntax.specs.declared.places.Xmm.{Xmm as AnXmm};
ghost use Rattle.x64_syntax.specs.declared.places.FlagName.{FlagName as AFlag};
ghost use Rattle.x64_syntax.specs.Operations.{operations, operation_name};
ghost use Rattle.x64_syntax.specs.Places.{reg_name, low_name, xmm_name, flag_name, reg_of, low_of, xmm_of, flag_of, all_regs, all_xmms, all_flags};
ghost use Rattle.x64_syntax.specs.Words.{operation_of};

/// Every register, xmm register, flag and instruction is in the list of these.
pub fn lists_are_whole()
    ensures regs { (r : AReg) → Contains all_regs r }
    ensures xmms { (x : AnXmm) → Contains all_xmms x }
    ensures flags { (f : AFlag) → Contains all_flags f }
    ensures operations { (o : AnOperation) → Contains operations o }
{}

/// No two registers, lower halves of registers, xmm registers, flags or instructions have one name.
pub fn names_are_told_apart()
    ensures regs { (r : AReg) → reg_of (reg_name r) ≡ Some r }
    ensures low { (r : AReg) → low_of (low_name r) ≡ Some r }
    ensures xmms { (x : AnXmm) → xmm_of (xmm_name x) ≡ Some x }
    ensures flags { (f : AFlag) → flag_of (flag_name f) ≡ Some f }
    ensures operations { (o : AnOperation) → operation_of (operation_name o) ≡ Some o }
{}
