// A file's rows together with where each table's stand in them: the tables are found once, and belong to no other rows.
ghost use Rattle.std.specs.Prelude.{◌≡◌, ◌+◌, ◌≤◌, ◌<◌};
ghost use Rattle.lingua.specs.Numbers.{most_procedures, declaration_section, type_section, expression_section, instruction_section, limit_section, scope_table, variable_table};
ghost use Rattle.lingua.specs.Rows.{row_count, procedure_count, table_count, type_row, expression_row, instruction_row, table_start};
ghost use Rattle.decoder.specs.Tables.{IsTable, AreTables, IsProcedure};
ghost use Rattle.decoder.specs.Mentions.{TypeAlike, ExpressionAlike, InstructionAlike};

use crate::decode::{
    ExpressionRow, InstructionRow, Simple, TypeRow, expression_at, instruction_at, type_at,
};
use crate::fields::{a_at, b_at, c_at};
use crate::tables::{Procedure, Table, Tables, tables_of};
use lingua::sizes::{ROW_BYTES, VARIABLE_TABLE};
use std::marker::Model;

#[derive(Drop)]
pub struct Rows<'a> {
    bytes: &'a [u8],
    tables: Tables,
}

impl<'a> Model for Rows<'a> {
    ghost use Rattle.std.specs.Prelude.{List, ℕ};
    ghost use Rattle.decoder.specs.Tables.{AreTables};

    ghost Value = { List ℕ };

    ghost view = { λ r. r.bytes.now };

    ghost invariant = { λ r. AreTables r.bytes.now r.tables };
}

impl<'a> Rows<'a> {
    pub fn of(bytes: &'a [u8]) -> Rows<'a>
        ensures { result ≡ bytes.now }
    {
        Rows {
            bytes: bytes,
            tables: tables_of(bytes),
        }
    }

    // Rows whose tables were found before.
    pub fn with(bytes: &'a [u8], tables: Tables) -> Rows<'a>
        requires { AreTables bytes.now tables }
        ensures { result ≡ bytes.now }
    {
        Rows {
            bytes: bytes,
            tables: tables,
        }
    }

    pub fn bytes(&self) -> &[u8]
        ensures { result.now ≡ self.now }
    {
        self.bytes
    }

    // To be kept where the rows themselves can't be.
    pub fn tables(&self) -> Tables
        ensures { AreTables self.now result }
    {
        self.tables
    }

    pub fn count(&self) -> usize
        ensures { result ≡ row_count self.now }
    {
        self.bytes.len() / ROW_BYTES
    }

    pub fn declarations(&self) -> Table
        ensures { IsTable self.now declaration_section result }
    {
        self.tables.declarations
    }

    pub fn types(&self) -> Table
        ensures { IsTable self.now type_section result }
    {
        self.tables.types
    }

    pub fn expressions(&self) -> Table
        ensures { IsTable self.now expression_section result }
    {
        self.tables.expressions
    }

    pub fn instructions(&self) -> Table
        ensures { IsTable self.now instruction_section result }
    {
        self.tables.instructions
    }

    pub fn limits(&self) -> Table
        ensures { IsTable self.now limit_section result }
    {
        self.tables.limits
    }

    pub fn procedures(&self) -> usize
        ensures { result ≡ procedure_count self.now }
    {
        let procedures = self.tables.procedures;
        procedures.count
    }

    // What stands between the row that begins procedure k and the next one.
    pub fn variables(&self, k: usize) -> Table
        requires k_lt_count { k < procedure_count self.now }
        requires k_lt_most { k < most_procedures }
        ensures { IsTable self.now (variable_table k) result }
    {
        let procedures = self.tables.procedures;
        let heads = procedures.heads;
        let end = heads[k + 1];
        let count = end - heads[k] - 1;
        Table {
            section: VARIABLE_TABLE + 2 * (k as u8),
            start: end - count,
            count: count,
        }
    }

    // The variables of a scope: 0 is the profile's own, else 1 + the procedure's number.
    pub fn scope(&self, s: usize) -> Table
        requires s_le_count { s ≤ procedure_count self.now }
        requires s_le_most { s ≤ most_procedures }
        ensures { IsTable self.now (scope_table s) result }
    {
        if s == 0 {
            return self.tables.declarations;
        }
        self.variables(s - 1)
    }

    pub fn procedure(&self, k: usize) -> Procedure
        requires k_lt_count { k < procedure_count self.now }
        requires k_lt_most { k < most_procedures }
        ensures { IsProcedure self.now k result }
    {
        let procedures = self.tables.procedures;
        let heads = procedures.heads;
        let i = heads[k];
        Procedure {
            body: a_at(self.bytes, i),
            values: b_at(self.bytes, i),
            references: c_at(self.bytes, i),
        }
    }

    // Row r of a table. What rule 6 refuses as unknown names nothing, and is taken for a row that names nothing.
    pub fn type_row(&self, r: usize) -> TypeRow
        requires { r < table_count self.now type_section }
        ensures { TypeAlike result (type_row self.now r) }
    {
        let t = self.tables.types;
        match type_at(self.bytes, t.start + r) {
            Some((_, row)) => row,
            None => TypeRow::Simple(Simple::Boolean),
        }
    }

    // Attributes as the decoded row has them: those in range are the row's, and the others are out of range.
    pub fn expression_row(&self, r: usize) -> ExpressionRow
        requires { r < table_count self.now expression_section }
        ensures { ExpressionAlike self.now (table_start self.now expression_section + r) result (expression_row self.now r) }
    {
        let t = self.tables.expressions;
        match expression_at(self.bytes, t.start + r) {
            Some((_, row)) => row,
            None => ExpressionRow::Constant(Simple::Boolean),
        }
    }

    pub fn instruction_row(&self, r: usize) -> InstructionRow
        requires { r < table_count self.now instruction_section }
        ensures { InstructionAlike result (instruction_row self.now r) }
    {
        let t = self.tables.instructions;
        match instruction_at(self.bytes, t.start + r) {
            Some((_, row)) => row,
            None => InstructionRow::Skip,
        }
    }
}
