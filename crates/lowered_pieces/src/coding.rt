//! The code of a function, as it is put together.
ghost use Rattle.std.specs.Prelude.{◌≡◌, ◌<◌, List, [], ◌∷◌, ◌++◌, length, IfOk, OnOk};
ghost use Rattle.jib.specs.declared.code.Source.TheVariants as read;
ghost use Rattle.jib.specs.declared.code.Target.TheVariants as write;
ghost use Rattle.jib.specs.declared.code.Instruction.TheVariants as code;
ghost use Rattle.jib.specs.declared.code.Source.{Source};
ghost use Rattle.lowered_slots.specs.Slots.{with_slot};
ghost use Rattle.lowered_pieces.specs.Places.{Naming};
ghost use Rattle.lowered_pieces.specs.Emitted.{Emits, Grows, HasNumber, Puts, Sourced, no_labels};

use jib::{Call, Instruction, Literal, Operation, Source, Target};
use lowered_slots::{Place, Slot, number_slot};
use model_state::Cause;
use sail_base::{Items, Place as TextPlace};
use std::alloc::{AllocError, Global};

/// What is put together so far: the slots, in the order in which they were asked for; the code; and how many labels are taken.
#[derive(Drop)]
pub struct Coding {
    /// The slots.
    pub slots: Items<Slot>,
    /// The code.
    pub code: Items<Instruction>,
    /// The next label.
    pub labels: u32,
}

impl Coding {
    /// Nothing is put yet, and labels are counted from this one on.
    pub fn new(alloc: Global, labels: u32) -> Coding
        ensures slots { result.slots ≡ [] }
        ensures code { result.code ≡ [] }
        ensures labels { result.labels ≡ labels }
    {
        Coding {
            slots: Items::new(alloc),
            code: Items::new(alloc),
            labels,
        }
    }

    /// The number of the slot for values of this type at this place. It fails where memory is wanting.
    pub fn slot(&mut self, place: Place, typ: u32) -> Result<u32, AllocError>
        ensures number { IfOk result (λ number. HasNumber self.new.slots place typ number) }
        ensures there { IfOk result (λ number. number < length self.new.slots) }
        ensures slots { OnOk result (self.new.slots ≡ with_slot place typ self.old.slots) }
        ensures grown { OnOk result (Grows self.old self.new) }
    {
        number_slot(&mut self.slots, place, typ)
    }

    /// So many labels are taken; the first of them. It fails where labels end, which is long after memory does.
    pub fn take_labels(&mut self, count: u32) -> Result<u32, AllocError>
        ensures first { IfOk result (λ first. first ≡ self.old.labels) }
        ensures taken { OnOk result (Emits self.old self.new (λ name label. []) (λ name. count)) }
    {
        let first = self.labels;
        match first.checked_add(count) {
            Some(next) => {
                self.labels = next;
                Ok(first)
            }
            None => Err(AllocError),
        }
    }

    /// An instruction behind the others. It fails where memory is wanting.
    fn put_plain(&mut self, instruction: Instruction) -> Result<(), AllocError>
        ensures { OnOk result (Puts self.old self.new instruction) }
    {
        self.code.push(instruction)
    }

    /// The label stands here. It fails where memory is wanting.
    pub fn put_label(&mut self, label: u32) -> Result<(), AllocError>
        ensures { OnOk result (Emits self.old self.new (λ name first. code.Label label ∷ []) no_labels) }
    {
        self.put_plain(Instruction::Label(label))
    }

    /// A jump to a label. It fails where memory is wanting.
    pub fn put_goto(&mut self, label: u32) -> Result<(), AllocError>
        ensures { OnOk result (Emits self.old self.new (λ name first. code.Goto label ∷ []) no_labels) }
    {
        self.put_plain(Instruction::Goto(label))
    }

    /// A tick. It fails where memory is wanting.
    pub fn put_tick(&mut self) -> Result<(), AllocError>
        ensures { OnOk result (Emits self.old self.new (λ name first. code.Tick ∷ []) no_labels) }
    {
        self.put_plain(Instruction::Tick)
    }

    /// The run stops here. It fails where memory is wanting.
    pub fn put_stop(&mut self, cause: Cause) -> Result<(), AllocError>
        ensures { OnOk result (Emits self.old self.new (λ name first. code.Stop cause ∷ []) no_labels) }
    {
        self.put_plain(Instruction::Stop(cause))
    }

    /// A jump to a label where the value at a place is true. It fails where memory is wanting.
    pub fn put_jump_if(&mut self, place: Place, typ: u32, label: u32) -> Result<(), AllocError>
        ensures { OnOk result (Emits self.old self.new (λ name first. code.JumpIf (read.Slot (name place typ)) label ∷ []) no_labels) }
    {
        let slot = self.slot(place, typ)?;
        self.put_plain(Instruction::JumpIf(Source::Slot(slot), label))
    }

    /// The function ends with the value at a place. It fails where memory is wanting.
    pub fn put_end(&mut self, place: Place, typ: u32) -> Result<(), AllocError>
        ensures { OnOk result (Emits self.old self.new (λ name first. code.End (read.Slot (name place typ)) ∷ []) no_labels) }
    {
        let slot = self.slot(place, typ)?;
        self.put_plain(Instruction::End(Source::Slot(slot)))
    }

    /// The function ends with the value at a place as an exception. It fails where memory is wanting.
    pub fn put_throw(&mut self, place: Place, typ: u32) -> Result<(), AllocError>
        ensures { OnOk result (Emits self.old self.new (λ name first. code.Throw (read.Slot (name place typ)) ∷ []) no_labels) }
    {
        let slot = self.slot(place, typ)?;
        self.put_plain(Instruction::Throw(Source::Slot(slot)))
    }

    /// The measure of the call is the value at a place. It fails where memory is wanting.
    pub fn put_measure(&mut self, place: Place, typ: u32) -> Result<(), AllocError>
        ensures { OnOk result (Emits self.old self.new (λ name first. code.Measure (read.Slot (name place typ)) ∷ []) no_labels) }
    {
        let slot = self.slot(place, typ)?;
        self.put_plain(Instruction::Measure(Source::Slot(slot)))
    }

    /// No pattern of the measure matched. It fails where memory is wanting.
    pub fn put_no_measure(&mut self) -> Result<(), AllocError>
        ensures { OnOk result (Emits self.old self.new (λ name first. code.NoMeasure ∷ []) no_labels) }
    {
        self.put_plain(Instruction::NoMeasure)
    }

    /// The value at one place goes to another, each of its type. It fails where memory is wanting.
    pub fn put_copy(
        &mut self,
        to: Place,
        typ: u32,
        from: Place,
        other: u32,
    ) -> Result<(), AllocError>
        ensures { OnOk result (Emits self.old self.new
            (λ name first. code.Copy (write.Slot (name to typ)) (read.Slot (name from other)) ∷ []) no_labels) }
    {
        let target = self.slot(to, typ)?;
        let source = self.slot(from, other)?;
        self.put_plain(Instruction::Copy(Target::Slot(target), Source::Slot(source)))
    }

    /// A constant goes to a place, of its type. It fails where memory is wanting.
    pub fn put_constant(&mut self, to: Place, typ: u32, literal: Literal) -> Result<(), AllocError>
        ensures { OnOk result (Emits self.old self.new
            (λ name first. code.Copy (write.Slot (name to typ)) (read.Constant typ literal) ∷ []) no_labels) }
    {
        let target = self.slot(to, typ)?;
        self.put_plain(Instruction::Copy(Target::Slot(target), Source::Constant(typ, literal)))
    }

    /// The value at a place as what an instruction reads. It fails where memory is wanting.
    pub fn source(&mut self, place: Place, typ: u32) -> Result<Source, AllocError>
        ensures read { IfOk result (λ source. Sourced self.new.slots (source ∷ []) (λ name. read.Slot (name place typ) ∷ [])) }
        ensures grown { OnOk result (Grows self.old self.new) }
    {
        let slot = self.slot(place, typ)?;
        Ok(Source::Slot(slot))
    }

    /// What an operation makes of sources goes to a place. It fails where memory is wanting.
    pub fn put_apply(
        &mut self,
        to: Place,
        typ: u32,
        op: Operation,
        sources: Items<Source>,
    ) -> Result<(), AllocError>
        ensures { (by : Naming → List Source) → Sourced self.old.slots sources by → OnOk result (Emits self.old self.new
            (λ name first. code.Apply (write.Slot (name to typ)) op (by name) ∷ []) no_labels) }
    {
        let target = self.slot(to, typ)?;
        self.put_plain(Instruction::Apply(Target::Slot(target), op, sources))
    }

    /// What an operation makes of the value at a place goes to another. It fails where memory is wanting.
    pub fn put_apply_one(
        &mut self,
        alloc: Global,
        to: Place,
        typ: u32,
        op: Operation,
        from: Place,
        other: u32,
    ) -> Result<(), AllocError>
        ensures { OnOk result (Emits self.old self.new
            (λ name first. code.Apply (write.Slot (name to typ)) op (read.Slot (name from other) ∷ []) ∷ []) no_labels) }
    {
        let source = self.source(from, other)?;
        let mut sources = Items::new(alloc);
        sources.push(source)?;
        self.put_apply(to, typ, op, sources)
    }

    /// What an operation makes of the value at a place and a constant behind it goes to another place. It fails where memory is wanting.
    pub fn put_apply_at(
        &mut self,
        alloc: Global,
        to: Place,
        typ: u32,
        op: Operation,
        from: Place,
        other: u32,
        constant: u32,
        literal: Literal,
    ) -> Result<(), AllocError>
        ensures { OnOk result (Emits self.old self.new
            (λ name first. code.Apply (write.Slot (name to typ)) op (read.Slot (name from other) ∷ read.Constant constant literal ∷ []) ∷ [])
            no_labels) }
    {
        let source = self.source(from, other)?;
        let mut sources = Items::new(alloc);
        sources.push(source)?;
        sources.push(Source::Constant(constant, literal))?;
        self.put_apply(to, typ, op, sources)
    }

    /// What an operation makes of the value at a place and two constants of one type behind it goes to another place. It fails where memory is
    /// wanting.
    pub fn put_apply_between(
        &mut self,
        alloc: Global,
        to: Place,
        typ: u32,
        op: Operation,
        from: Place,
        other: u32,
        constant: u32,
        first: Literal,
        second: Literal,
    ) -> Result<(), AllocError>
        ensures { OnOk result (Emits self.old self.new
            (λ name label. code.Apply (write.Slot (name to typ)) op (read.Slot (name from other) ∷ read.Constant constant first
            ∷ read.Constant constant second ∷ []) ∷ []) no_labels) }
    {
        let source = self.source(from, other)?;
        let mut sources = Items::new(alloc);
        sources.push(source)?;
        sources.push(Source::Constant(constant, first))?;
        sources.push(Source::Constant(constant, second))?;
        self.put_apply(to, typ, op, sources)
    }

    /// What an operation makes of a constant and the value at a place behind it goes to another place. It fails where memory is wanting.
    pub fn put_apply_of(
        &mut self,
        alloc: Global,
        to: Place,
        typ: u32,
        op: Operation,
        constant: u32,
        literal: Literal,
        from: Place,
        other: u32,
    ) -> Result<(), AllocError>
        ensures { OnOk result (Emits self.old self.new
            (λ name first. code.Apply (write.Slot (name to typ)) op (read.Constant constant literal ∷ read.Slot (name from other) ∷ []) ∷ [])
            no_labels) }
    {
        let source = self.source(from, other)?;
        let mut sources = Items::new(alloc);
        sources.push(Source::Constant(constant, literal))?;
        sources.push(source)?;
        self.put_apply(to, typ, op, sources)
    }

    /// What an operation makes of the values at two places of one type goes to a third. It fails where memory is wanting.
    pub fn put_apply_two(
        &mut self,
        alloc: Global,
        to: Place,
        typ: u32,
        op: Operation,
        first: Place,
        second: Place,
        other: u32,
    ) -> Result<(), AllocError>
        ensures { OnOk result (Emits self.old self.new
            (λ name label. code.Apply (write.Slot (name to typ)) op (read.Slot (name first other) ∷ read.Slot (name second other) ∷ []) ∷ [])
            no_labels) }
    {
        let before = self.source(first, other)?;
        let behind = self.source(second, other)?;
        let mut sources = Items::new(alloc);
        sources.push(before)?;
        sources.push(behind)?;
        self.put_apply(to, typ, op, sources)
    }

    /// The value of a register goes to a place. It fails where memory is wanting.
    pub fn put_register(&mut self, to: Place, typ: u32, register: u32) -> Result<(), AllocError>
        ensures { OnOk result (Emits self.old self.new
            (λ name first. code.Copy (write.Slot (name to typ)) (read.Register register) ∷ []) no_labels) }
    {
        let target = self.slot(to, typ)?;
        self.put_plain(Instruction::Copy(Target::Slot(target), Source::Register(register)))
    }

    /// The value of an opening goes to a place. It fails where memory is wanting.
    pub fn put_opening(&mut self, to: Place, typ: u32, opening: u32) -> Result<(), AllocError>
        ensures { OnOk result (Emits self.old self.new
            (λ name first. code.Copy (write.Slot (name to typ)) (read.Let opening) ∷ []) no_labels) }
    {
        let target = self.slot(to, typ)?;
        self.put_plain(Instruction::Copy(Target::Slot(target), Source::Let(opening)))
    }

    /// The value at a place goes to a register. It fails where memory is wanting.
    pub fn put_write(&mut self, register: u32, from: Place, typ: u32) -> Result<(), AllocError>
        ensures { OnOk result (Emits self.old self.new
            (λ name first. code.Copy (write.Register register) (read.Slot (name from typ)) ∷ []) no_labels) }
    {
        let source = self.slot(from, typ)?;
        self.put_plain(Instruction::Copy(Target::Register(register), Source::Slot(source)))
    }

    /// The payload of the value at a place goes to another place, where it is of this constructor; else a jump to a label. It fails where memory
    /// is wanting.
    pub fn put_payload(
        &mut self,
        to: Place,
        typ: u32,
        from: Place,
        other: u32,
        constructor: u32,
        label: u32,
    ) -> Result<(), AllocError>
        ensures { OnOk result (Emits self.old self.new
            (λ name first. code.Payload (name to typ) (read.Slot (name from other)) constructor label ∷ []) no_labels) }
    {
        let slot = self.slot(to, typ)?;
        let source = self.slot(from, other)?;
        self.put_plain(Instruction::Payload(slot, Source::Slot(source), constructor, label))
    }

    /// A call of a function, whose result goes to a place. It fails where memory is wanting.
    pub fn put_call(
        &mut self,
        to: Place,
        typ: u32,
        function: u32,
        arguments: Items<Source>,
        on_throw: u32,
        place: TextPlace,
    ) -> Result<(), AllocError>
        ensures { (by : Naming → List Source) → Sourced self.old.slots arguments by → OnOk result (Emits self.old self.new
            (λ name first. code.Call (record {
              slot = name to typ;
              function = function;
              arguments = by name;
              on_throw = on_throw;
              place = place;
            }) ∷ []) no_labels) }
    {
        let slot = self.slot(to, typ)?;
        self.put_plain(Instruction::Call(Call {
            slot,
            function,
            arguments,
            on_throw,
            place,
        }))
    }
}
