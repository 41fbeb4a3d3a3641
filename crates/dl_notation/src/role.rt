//! What a part of the notation has to be, by where it stands.

/// Which number a part is.
#[derive(Clone, Copy, Debug, Drop)]
pub enum NumberRole {
    /// The version of the notation, 1.
    Version,
    /// Any number.
    Integer,
    /// The number of a part: 1 or 2.
    Half,
    /// The number of a point of a procedure.
    Point,
}

/// Which name a part is: one that it declares or introduces, or one that is known.
#[derive(Clone, Copy, Debug, Drop)]
pub enum NameRole {
    /// A node that is declared.
    NewNode,
    /// A sort that is declared.
    NewSort,
    /// An enumerator that is declared.
    NewEnumerator,
    /// A protocol that is declared.
    NewProtocol,
    /// A field or a row that is declared.
    NewField,
    /// A tag that is declared.
    NewTag,
    /// A label that is declared.
    NewLabel,
    /// A hook that is declared.
    NewHook,
    /// A world that is declared.
    NewWorld,
    /// An invariant that is declared.
    NewInvariant,
    /// A procedure that is declared.
    NewProcedure,
    /// An argument of a tag.
    NewArgument,
    /// A hook's own name for an argument.
    NewHookArgument,
    /// A parameter of a procedure.
    NewParameter,
    /// A local of a procedure.
    NewLocal,
    /// A name that a proof gives to a part of its obligation.
    NewStepName,
    /// A variable or a message that a script introduces.
    NewOpened,
    /// A hypothesis that a script introduces.
    NewHypothesis,
    /// The same, which only the last script behind it knows.
    NewLastHypothesis,
    /// A sort.
    Sort,
    /// A protocol.
    Protocol,
    /// A label.
    Label,
    /// The core of a hook.
    Core,
    /// The client of a hook.
    Client,
    /// A tag of the hook's client.
    HookTag,
    /// A label of a world.
    ListedLabel,
    /// A hook of a world.
    ListedHook,
    /// A world.
    World,
    /// An invariant.
    Invariant,
    /// A field that a transition sets.
    UpdatedField,
    /// A tag of the label before it.
    SentTag,
    /// A tag of the label before it that can be received.
    ReceivedTag,
    /// A local that a command sets.
    Target,
    /// A field or a row of the label before it.
    ReadField,
    /// A procedure that is called.
    Callee,
    /// A procedure.
    Procedure,
    /// A node.
    Node,
    /// A node that runs a procedure.
    DeployedNode,
    /// A protocol or an invariant.
    Claimed,
    /// A tag of the protocol before it.
    ProtocolTag,
    /// A tag of the label before it.
    StepTag,
    /// A hypothesis.
    Hypothesis,
    /// A hypothesis, or the word `goal`.
    Rewritten,
}

/// Which formula a part is.
#[derive(Clone, Copy, Debug, Drop)]
pub enum FormulaRole {
    /// The guard of a transition.
    Guard,
    /// The coherence of a protocol.
    Coherence,
    /// The condition of a hook.
    Hook,
    /// The formula of an invariant.
    Invariant,
    /// The formula of a precondition.
    Precondition,
    /// The formula of a postcondition.
    Postcondition,
    /// The annotation of a command.
    Annotation,
    /// The frame of a call.
    Frame,
    /// The test of a choice or a loop.
    Test,
    /// A formula of a script.
    Claim,
}

/// Which term a part is.
#[derive(Clone, Copy, Debug, Drop)]
pub enum TermRole {
    /// The first value of a field or a row.
    FirstValue,
    /// A term of an update.
    Update,
    /// An expression of a procedure.
    Expression,
    /// A term of a script whose bounds are taken.
    Bounded,
    /// A term of a script that a quantifier is taken at: a node or a message.
    Given,
}

/// Which list a part is.
#[derive(Clone, Copy, Debug, Drop)]
pub enum ListRole {
    /// A file.
    File,
    /// The node list.
    Nodes,
    /// An item of a file.
    Item,
    /// The range or the enumerators of a sort.
    SortBody,
    /// A field, a row, a tag or the coherence of a protocol.
    ProtocolPart,
    /// The arguments of a tag with their sorts.
    Arguments,
    /// An argument of a tag with its sort.
    Argument,
    /// The send of a tag.
    Send,
    /// The receive of a tag.
    Receive,
    /// An update of a field.
    Update,
    /// A hook's names for the arguments of its tag.
    HookArguments,
    /// The labels of a world.
    WorldLabels,
    /// The hooks of a world.
    WorldHooks,
    /// Two worlds that are composed.
    Composition,
    /// The parameters of a procedure with their sorts.
    Parameters,
    /// A parameter with its sort.
    Parameter,
    /// The locals of a procedure.
    Locals,
    /// What a procedure may begin with.
    Precondition,
    /// What a procedure ends with.
    Postcondition,
    /// The commands of a procedure.
    Body,
    /// What a procedure returns.
    Return,
    /// A command.
    Command,
    /// The locals that the arguments of a message are put in.
    Targets,
    /// The commands of a choice where its test holds.
    Then,
    /// The commands of a choice where its test fails.
    Else,
    /// What a node runs.
    Program,
    /// An obligation, by its name.
    Obligation,
    /// The names that a proof gives to the parts of its obligation.
    StepNames,
    /// A script.
    Script,
    /// A certificate of a contradiction.
    Certificate,
    /// A certificate with its multiplier.
    Multiple,
}

/// What a part has to be.
#[derive(Clone, Copy, Debug, Drop)]
pub enum Role {
    Number(NumberRole),
    Name(NameRole),
    /// A number, or the name of a node or an enumerator.
    Constant,
    /// The word `send` or the word `receive`.
    Way,
    Formula(FormulaRole),
    Term(TermRole),
    List(ListRole),
}
