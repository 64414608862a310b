//! The memory of a run.
ghost use Rattle.std.specs.Prelude.{◌≡◌, IsTrue, ℕ, List, ◌<◌, ◌≤◌, ◌+◌, ◌^◌, ◌++◌, IfOk, OnOk, min, map, vec_len, length, [], Ok, ◌*◌, replicate, None, option_map};
ghost use Rattle.c_types.specs.Types.{type_of, member_of};
ghost use Rattle.clight_values.specs.Memory as m;
ghost use Rattle.c_types.specs.Kinds.{is_scalar};
ghost use Rattle.clight_values.specs.Memory.{block_in, own_blocks};
ghost use Rattle.clight_values.specs.Code.Views.{cell_held, cells_held, memory_held, structs_held, variables_held, kind_held, Becomes};

use crate::integer::{is_negative, magnitude};
use crate::lookup::item_at;
use crate::value::{Block, Place, Value};
use c_types::{IntegerType, MemberType, StructType, Ty};
use cerco_base::{FaultKind, NoMemory};
use clight_syntax::typed::{Home, Variable};
use std::alloc::Global;

/// A byte of a live block: the type of the scalar that begins there, if one does, and its value, if it is set.
#[derive(Clone, Copy)]
pub struct Cell<'a> {
    pub kind: Option<&'a Ty>,
    pub value: Option<Value>,
}

impl<'a> Cell<'a> {
    /// An unset byte, at which a scalar of this type begins, if there is one.
    fn unset(kind: Option<&'a Ty>) -> Cell<'a>
        ensures { cell_held result ≡ m.unset (option_map kind_held kind.entry) }
    {
        Cell { kind, value: None }
    }
}

/// The live blocks, the oldest first.
#[derive(Drop)]
pub struct Memory<'a> {
    pub cells: Vec<Cell<'a>>,
    pub blocks: Vec<Block>,
}

impl<'a> Memory<'a> {
    /// Without a block.
    pub fn new(alloc: Global) -> Memory<'a>
        ensures { memory_held result ≡ record { cells = []; blocks = [] } }
    {
        Memory {
            cells: Vec::new(alloc),
            blocks: Vec::new(alloc),
        }
    }

    /// The block of a place, if it lives.
    fn live(&self, at: Place) -> Result<Block, FaultKind>
        ensures { result ≡ m.live (memory_held self.now) at }
    {
        if at.slot >= self.blocks.len() {
            return Err(FaultKind::Dead);
        }
        let block = self.blocks[at.slot];
        if block.call == at.call {
            Ok(block)
        } else {
            Err(FaultKind::Dead)
        }
    }

    /// The number of the cell in which a scalar of this type begins at a place.
    fn accessed(&self, ty: &Ty, at: Place) -> Result<usize, FaultKind>
        ensures value { result ≡ m.accessed (memory_held self.now) (type_of ty.now) at }
        ensures within { IfOk result (λ i. i < length self.now.cells.items) }
    {
        let block = match self.live(at) {
            Err(kind) => return Err(kind),
            Ok(block) => block,
        };
        if at.offset >= block.size {
            return Err(FaultKind::Outside);
        }
        let Some(i) = block.begin.checked_add(at.offset as usize) else {
            return Err(FaultKind::Outside);
        };
        if i >= self.cells.len() {
            return Err(FaultKind::Outside);
        }
        match self.cells[i].kind {
            None => Err(FaultKind::Outside),
            Some(kind) => {
                if kind.is_same(ty) {
                    Ok(i)
                } else {
                    Err(FaultKind::Outside)
                }
            }
        }
    }

    /// The scalar of this type that a pointer points to.
    pub fn load(&self, ty: &Ty, pointer: Value) -> Result<Value, FaultKind>
        ensures { result ≡ m.load (memory_held self.now) (type_of ty.now) pointer }
    {
        match pointer {
            Value::Pointer(at) => match self.accessed(ty, at) {
                Err(kind) => Err(kind),
                Ok(i) => match self.cells[i].value {
                    None => Err(FaultKind::Unset),
                    Some(value) => Ok(value),
                },
            },
            _ => Err(FaultKind::Outside),
        }
    }

    /// Stores a scalar of this type where a pointer points. After a fault nothing has changed.
    pub fn store(&mut self, ty: &Ty, pointer: Value, value: Value) -> Result<(), FaultKind>
        ensures { Becomes (m.stored (memory_held self.old) (type_of ty.now) pointer value) (memory_held self.old) (memory_held self.new) result }
    {
        match pointer {
            Value::Pointer(at) => match self.accessed(ty, at) {
                Err(kind) => Err(kind),
                Ok(i) => {
                    let kind = self.cells[i].kind;
                    self.cells[i] = Cell {
                        kind,
                        value: Some(value),
                    };
                    Ok(())
                }
            },
            _ => Err(FaultKind::Outside),
        }
    }

    /// A pointer so many bytes further on, or back. The number of bytes is told up to 2 to the 32nd.
    pub fn moved(&self, pointer: Value, back: bool, by: u64) -> Result<Value, FaultKind>
        ensures { (n : ℕ) → by ≡ min n (2 ^ 32) → result ≡ m.moved (memory_held self.now) pointer back n }
    {
        let Value::Pointer(at) = pointer else {
            return Err(FaultKind::Outside);
        };
        match self.live(at) {
            Err(kind) => Err(kind),
            Ok(block) => moved_in(block, at, back, by),
        }
    }

    /// A pointer that steps over elements of so many bytes by an integer of a type, or back. The number of bytes is told up to 2
    /// to the 32nd.
    pub fn stepped(
        &self,
        size: u64,
        back: bool,
        pointer: Value,
        integer: IntegerType,
        by: Value,
    ) -> Result<Value, FaultKind>
        ensures { (n : ℕ) → size ≡ min n (2 ^ 32) → result ≡ m.stepped (memory_held self.now) n back pointer integer by }
    {
        let Value::Integer(n) = by else {
            return Err(FaultKind::Outside);
        };
        let bytes = scaled(magnitude(integer, n), size);
        self.moved(pointer, back != is_negative(integer, n), bytes)
    }

    /// Whether a value counts as true.
    pub fn is_true(&self, value: Value) -> Result<bool, FaultKind>
        ensures { result ≡ m.is_true (memory_held self.now) value }
    {
        match value {
            Value::Integer(n) => Ok(n != 0),
            Value::Null => Ok(false),
            Value::Pointer(at) => match self.live(at) {
                Err(kind) => Err(kind),
                Ok(_) => Ok(true),
            },
        }
    }

    /// Whether two pointers are equal.
    pub fn equal(&self, left: Value, right: Value) -> Result<bool, FaultKind>
        ensures { result ≡ m.equal (memory_held self.now) left right }
    {
        match left {
            Value::Pointer(p) => match right {
                Value::Pointer(q) => equal_in(self.live(p), self.live(q), p, q),
                _ => differs_from_null(self.live(p)),
            },
            _ => match right {
                Value::Pointer(q) => differs_from_null(self.live(q)),
                _ => Ok(true),
            },
        }
    }

    /// Whether the first of two pointers stands before the second.
    pub fn less(&self, left: Value, right: Value) -> Result<bool, FaultKind>
        ensures { result ≡ m.less (memory_held self.now) left right }
    {
        match left {
            Value::Pointer(p) => match right {
                Value::Pointer(q) => less_in(self.live(p), self.live(q), p, q),
                _ => without_order(self.live(p)),
            },
            _ => match right {
                Value::Pointer(q) => without_order(self.live(q)),
                _ => Err(FaultKind::Compare),
            },
        }
    }

    /// How many blocks live.
    pub fn blocks(&self) -> usize
        ensures { result ≡ length (memory_held self.now).blocks }
    {
        self.blocks.len()
    }

    /// How many bytes they have.
    pub fn cells(&self) -> usize
        ensures { result ≡ length (memory_held self.now).cells }
    {
        self.cells.len()
    }

    /// Only the first so many blocks and bytes live on.
    pub fn leave(&mut self, blocks: usize, cells: usize)
        ensures { memory_held self.new ≡ m.left blocks cells (memory_held self.old) }
    {
        self.blocks.truncate(blocks);
        self.cells.truncate(cells);
    }
}

fn moved_in(block: Block, at: Place, back: bool, by: u64) -> Result<Value, FaultKind>
    ensures { (n : ℕ) → by ≡ min n (2 ^ 32) → result ≡ m.moved_in (Ok block) at back n }
{
    let offset = u64::from(at.offset);
    let size = u64::from(block.size);
    let offset = if back {
        if offset < by {
            return Err(FaultKind::Outside);
        }
        offset - by
    } else {
        if by > 0xFFFF_FFFF || size < offset + by {
            return Err(FaultKind::Outside);
        }
        offset + by
    };
    Ok(Value::Pointer(Place {
        slot: at.slot,
        call: at.call,
        offset: offset as u32,
    }))
}

/// So many elements of so many bytes. Numbers are told up to 2 to the 32nd.
fn scaled(count: u64, size: u64) -> u64
    requires { count ≤ 2 ^ 32 }
    ensures { (n : ℕ) → size ≡ min n (2 ^ 32) → result ≡ min (count * n) (2 ^ 32) }
{
    count.saturating_mul(size).min(0x1_0000_0000)
}

/// The value with which a scalar of this type begins.
pub fn initial(ty: &Ty) -> Value
    ensures { result ≡ m.initial (type_of ty.now) }
{
    match ty {
        Ty::Pointer(_) => Value::Null,
        _ => Value::Integer(0),
    }
}

fn equal_in(
    left: Result<Block, FaultKind>,
    right: Result<Block, FaultKind>,
    p: Place,
    q: Place,
) -> Result<bool, FaultKind>
    ensures { result ≡ m.equal_in left right p q }
{
    match left {
        Err(kind) => Err(kind),
        Ok(a) => match right {
            Err(kind) => Err(kind),
            Ok(b) => {
                if p.slot == q.slot {
                    Ok(p.offset == q.offset)
                } else if p.offset == a.size || q.offset == b.size {
                    Err(FaultKind::Compare)
                } else {
                    Ok(false)
                }
            }
        },
    }
}

fn differs_from_null(block: Result<Block, FaultKind>) -> Result<bool, FaultKind>
    ensures { result ≡ m.differs_from_null block }
{
    match block {
        Err(kind) => Err(kind),
        Ok(_) => Ok(false),
    }
}

fn less_in(
    left: Result<Block, FaultKind>,
    right: Result<Block, FaultKind>,
    p: Place,
    q: Place,
) -> Result<bool, FaultKind>
    ensures { result ≡ m.less_in left right p q }
{
    match left {
        Err(kind) => Err(kind),
        Ok(_) => match right {
            Err(kind) => Err(kind),
            Ok(_) => {
                if p.slot == q.slot {
                    Ok(p.offset < q.offset)
                } else {
                    Err(FaultKind::Compare)
                }
            }
        },
    }
}

fn without_order(block: Result<Block, FaultKind>) -> Result<bool, FaultKind>
    ensures { result ≡ m.without_order block }
{
    match block {
        Err(kind) => Err(kind),
        Ok(_) => Err(FaultKind::Compare),
    }
}

/// Adds the bytes of a type, unset. At most so many structs stand within one another in it.
#[cycle(bytes_of_types)]
pub fn push_cells<'a>(
    cells: &mut Vec<Cell<'a>>,
    structs: &'a [StructType],
    depth: usize,
    ty: &'a Ty,
) -> Result<(), NoMemory>
    ensures { OnOk result (cells_held cells.new.items ≡ cells_held cells.old.items ++ map m.unset (m.kinds_by (m.nested_kinds (structs_held structs.now) depth) (type_of ty.now))) }
{
    match ty {
        Ty::Void => Ok(()),
        Ty::Array(element, count) => {
            for _ in 0..*count {
                push_cells(cells, structs, depth, element)?;
            }
            Ok(())
        }
        Ty::Struct(number) => match depth.checked_sub(1) {
            None => Ok(()),
            Some(less) => match item_at(structs, *number as usize) {
                None => Ok(()),
                Some(found) => push_members(cells, structs, less, &found.members),
            },
        },
        _ => push_scalar(cells, ty),
    }
}

/// Adds the bytes of the members of a struct.
#[cycle(bytes_of_types)]
fn push_members<'a>(
    cells: &mut Vec<Cell<'a>>,
    structs: &'a [StructType],
    depth: usize,
    members: &'a [MemberType],
) -> Result<(), NoMemory>
    ensures { OnOk result (cells_held cells.new.items ≡ cells_held cells.old.items ++ map m.unset (m.kinds_of_members (m.nested_kinds (structs_held structs.now) depth) (map member_of members.now))) }
{
    for member in members {
        push_cells(cells, structs, depth, &member.ty)?;
    }
    Ok(())
}

/// Adds the bytes of a scalar.
fn push_scalar<'a>(cells: &mut Vec<Cell<'a>>, ty: &'a Ty) -> Result<(), NoMemory>
    requires { IsTrue (is_scalar (type_of ty.now)) }
    ensures { (kinds : ℕ → m.Kinds) → OnOk result (cells_held cells.new.items ≡ cells_held cells.old.items ++ map m.unset (m.kinds_by kinds (type_of ty.now))) }
{
    cells.push(Cell::unset(Some(ty)))?;
    match ty {
        Ty::I8 => push_gaps(cells, 0),
        Ty::U8 => push_gaps(cells, 0),
        Ty::I32 => push_gaps(cells, 3),
        Ty::U32 => push_gaps(cells, 3),
        _ => push_gaps(cells, 1),
    }
}

/// Adds bytes at which no scalar begins.
fn push_gaps(cells: &mut Vec<Cell<'_>>, count: u32) -> Result<(), NoMemory>
    ensures { OnOk result (cells_held cells.new.items ≡ cells_held cells.old.items ++ map m.unset (replicate count None)) }
{
    for _ in 0..count {
        cells.push(Cell::unset(None))?;
    }
    Ok(())
}

impl<'a> Memory<'a> {
    /// A variable of this type becomes a block of a call, unset.
    pub fn begin_block(
        &mut self,
        call: u64,
        structs: &'a [StructType],
        ty: &'a Ty,
    ) -> Result<(), NoMemory>
        ensures { OnOk result (memory_held self.new ≡ m.with_block call (map m.unset (m.kinds_of (structs_held structs.now) (type_of ty.now))) (memory_held self.old)) }
    {
        let begin = self.cells.len();
        push_cells(&mut self.cells, structs, structs.len(), ty)?;
        let Ok(size) = u32::try_from(self.cells.len() - begin) else {
            return Err(NoMemory);
        };
        self.blocks.push(Block { call, begin, size })?;
        Ok(())
    }

    /// Those of these variables of a call that live in a block get theirs, unset.
    pub fn begin_blocks(
        &mut self,
        call: u64,
        structs: &'a [StructType],
        variables: &'a [Variable],
    ) -> Result<(), NoMemory>
        ensures { OnOk result (memory_held self.new ≡ m.with_blocks call (own_blocks (structs_held structs.now) (variables_held variables.now)) (memory_held self.old)) }
    {
        for variable in variables {
            self.begin_own(call, structs, variable)?;
        }
        Ok(())
    }

    /// A variable of a call gets its block, if it lives in one.
    fn begin_own(
        &mut self,
        call: u64,
        structs: &'a [StructType],
        variable: &'a Variable,
    ) -> Result<(), NoMemory>
        ensures { (more : List (List m.Cell)) → OnOk result (m.with_blocks call more (memory_held self.new) ≡ m.with_blocks call (block_in variable.now.home (map m.unset (m.kinds_of (structs_held structs.now) (type_of variable.now.ty))) more) (memory_held self.old)) }
    {
        match variable.home {
            Home::Block(_) => self.begin_block(call, structs, &variable.ty),
            _ => Ok(()),
        }
    }
}
