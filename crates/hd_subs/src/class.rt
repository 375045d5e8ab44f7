//! A class object as its CLASS DUMP has it: IDs, constants, statics and instance fields.
use hd_terms::Span;

/// A constant of a class's constant pool.
#[derive(Clone, Copy)]
pub struct Constant {
    /// Its type, as HPROF numbers the basic types: 1 or 2 for an ID, or 4 to 11.
    pub code: u8,
    /// Where its value lies in the file.
    pub value: Span,
}

/// A static of a class.
#[derive(Clone, Copy)]
pub struct Static {
    /// The ID of the text that is its name.
    pub name: u64,
    /// Its type, as HPROF numbers the basic types: 1 or 2 for an ID, or 4 to 11.
    pub code: u8,
    /// Where its value lies in the file.
    pub value: Span,
}

/// An instance field that a class declares.
#[derive(Clone, Copy)]
pub struct Field {
    /// The ID of the text that is its name.
    pub name: u64,
    /// Its type, as HPROF numbers the basic types: 1 or 2 for an ID, or 4 to 11.
    pub code: u8,
}

/// A class object. Its lists are in the order of the file.
pub struct ClassDump {
    pub id: u64,
    /// The ID of the super class, 0 where there is none.
    pub super_id: u64,
    /// The ID of the class loader, 0 for that of the virtual machine.
    pub loader: u64,
    pub signers: u64,
    /// The ID of the protection domain.
    pub domain: u64,
    pub constants: Vec<Constant>,
    pub statics: Vec<Static>,
    /// The instance fields that the class itself declares.
    pub fields: Vec<Field>,
}

impl Drop for ClassDump {
    /// Drops the fields. A derived drop would be proved anew at each place that lets go of one.
    fn drop(self) {
        let Self {
            id: _,
            super_id: _,
            loader: _,
            signers: _,
            domain: _,
            constants,
            statics,
            fields,
        } = self;
    }
}
