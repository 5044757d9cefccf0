// The text of the kernel classes.
ghost use Rattle.std.specs.Prelude.{◌≡◌};
ghost use Rattle.st_kernel.specs.KernelText.{prelude_text};

/// The kernel classes and their methods, in the layout of a file-out: first each class, then its methods in runs of one
/// class and side, each method in canonical text. `<primitive: n>` says which primitive a method is.
const PRELUDE: &[u8] = b"nil subclass: #Object
\tinstanceVariableNames: ''
\tclassVariableNames: ''
\tpoolDictionaries: ''
\tcategory: 'Kernel'!

Object subclass: #UndefinedObject
\tinstanceVariableNames: ''
\tclassVariableNames: ''
\tpoolDictionaries: ''
\tcategory: 'Kernel'!

Object subclass: #Boolean
\tinstanceVariableNames: ''
\tclassVariableNames: ''
\tpoolDictionaries: ''
\tcategory: 'Kernel'!

Boolean subclass: #True
\tinstanceVariableNames: ''
\tclassVariableNames: ''
\tpoolDictionaries: ''
\tcategory: 'Kernel'!

Boolean subclass: #False
\tinstanceVariableNames: ''
\tclassVariableNames: ''
\tpoolDictionaries: ''
\tcategory: 'Kernel'!

Object subclass: #Magnitude
\tinstanceVariableNames: ''
\tclassVariableNames: ''
\tpoolDictionaries: ''
\tcategory: 'Kernel'!

Magnitude subclass: #Character
\tinstanceVariableNames: ''
\tclassVariableNames: ''
\tpoolDictionaries: ''
\tcategory: 'Kernel'!

Magnitude subclass: #Number
\tinstanceVariableNames: ''
\tclassVariableNames: ''
\tpoolDictionaries: ''
\tcategory: 'Kernel'!

Number subclass: #Integer
\tinstanceVariableNames: ''
\tclassVariableNames: ''
\tpoolDictionaries: ''
\tcategory: 'Kernel'!

Object subclass: #Collection
\tinstanceVariableNames: ''
\tclassVariableNames: ''
\tpoolDictionaries: ''
\tcategory: 'Kernel'!

Collection subclass: #ArrayedCollection
\tinstanceVariableNames: ''
\tclassVariableNames: ''
\tpoolDictionaries: ''
\tcategory: 'Kernel'!

ArrayedCollection subclass: #String
\tinstanceVariableNames: ''
\tclassVariableNames: ''
\tpoolDictionaries: ''
\tcategory: 'Kernel'!

String subclass: #Symbol
\tinstanceVariableNames: ''
\tclassVariableNames: ''
\tpoolDictionaries: ''
\tcategory: 'Kernel'!

ArrayedCollection subclass: #Array
\tinstanceVariableNames: ''
\tclassVariableNames: ''
\tpoolDictionaries: ''
\tcategory: 'Kernel'!

Collection subclass: #OrderedCollection
\tinstanceVariableNames: 'array tally'
\tclassVariableNames: ''
\tpoolDictionaries: ''
\tcategory: 'Kernel'!

Object subclass: #Association
\tinstanceVariableNames: 'key value'
\tclassVariableNames: ''
\tpoolDictionaries: ''
\tcategory: 'Kernel'!

Collection subclass: #Dictionary
\tinstanceVariableNames: 'pairs'
\tclassVariableNames: ''
\tpoolDictionaries: ''
\tcategory: 'Kernel'!

Object subclass: #Block
\tinstanceVariableNames: ''
\tclassVariableNames: ''
\tpoolDictionaries: ''
\tcategory: 'Kernel'!

Object subclass: #Class
\tinstanceVariableNames: ''
\tclassVariableNames: ''
\tpoolDictionaries: ''
\tcategory: 'Kernel'!

Object subclass: #TextCollector
\tinstanceVariableNames: ''
\tclassVariableNames: ''
\tpoolDictionaries: ''
\tcategory: 'Kernel'!

!Object methodsFor: 'kernel'!
= x
\t^self == x!

~= x
\t^(self = x) not!

== x
\t<primitive: 1>!

~~ x
\t^(self == x) not!

class
\t<primitive: 2>!

isKindOf: c
\t<primitive: 3>!

isMemberOf: c
\t^self class == c!

isNil
\t^false!

notNil
\t^true!

isString
\t^false!

isInteger
\t^false!

yourself
\t^self!

shallowCopy
\t<primitive: 4>!

copy
\t^self shallowCopy!

error: t
\t<primitive: 5>!

subclassResponsibility
\t^self error: 'subclass responsibility'!

printString
\t^'an object'!

displayString
\t^self printString!

-> v
\t^Association key: self value: v!

perform: a
\t<primitive: 6>!

perform: a with: b
\t<primitive: 6>!

perform: a with: b with: c
\t<primitive: 6>!

perform: a with: b with: c with: d
\t<primitive: 6>!

perform: a withArguments: b
\t<primitive: 6>!

instVarAt: a
\t<primitive: 6>!

instVarAt: a put: b
\t<primitive: 6>!

instVarNamed: a
\t<primitive: 6>!

instVarNamed: a put: b
\t<primitive: 6>!

become: a
\t<primitive: 6>!

becomeForward: a
\t<primitive: 6>!

respondsTo: a
\t<primitive: 6>!

canUnderstand: a
\t<primitive: 6>!

allInstances
\t<primitive: 6>!

allSubclasses
\t<primitive: 6>!

subclasses
\t<primitive: 6>!

superclass
\t<primitive: 6>!

selectors
\t<primitive: 6>!

includesSelector: a
\t<primitive: 6>!

compile: a
\t<primitive: 6>!

compile: a classified: b
\t<primitive: 6>!

evaluate: a
\t<primitive: 6>! !

!UndefinedObject methodsFor: 'kernel'!
isNil
\t^true!

notNil
\t^false!

printString
\t^'nil'! !

!True methodsFor: 'kernel'!
not
\t^false!

& b
\t^b!

| b
\t^true!

and: b
\t^b value!

or: b
\t^true!

ifTrue: a
\t^a value!

ifFalse: a
\t^nil!

ifTrue: a ifFalse: b
\t^a value!

ifFalse: a ifTrue: b
\t^b value!

printString
\t^'true'! !

!False methodsFor: 'kernel'!
not
\t^true!

& b
\t^false!

| b
\t^b!

and: b
\t^false!

or: b
\t^b value!

ifTrue: a
\t^nil!

ifFalse: a
\t^a value!

ifTrue: a ifFalse: b
\t^b value!

ifFalse: a ifTrue: b
\t^a value!

printString
\t^'false'! !

!Magnitude methodsFor: 'kernel'!
> x
\t^x < self!

<= x
\t^(x < self) not!

>= x
\t^(self < x) not!

max: x
\t^self < x ifTrue: [x] ifFalse: [self]!

min: x
\t^self < x ifTrue: [self] ifFalse: [x]!

between: a and: b
\t^a <= self and: [self <= b]! !

!Character methodsFor: 'kernel'!
value
\t<primitive: 41>!

< x
\t^self value < x value!

asInteger
\t^self value!

asString
\t<primitive: 42>!

printString
\t<primitive: 43>! !

!Integer methodsFor: 'kernel'!
+ x
\t<primitive: 10>!

- x
\t<primitive: 11>!

* x
\t<primitive: 12>!

// x
\t<primitive: 13>!

\\\\ x
\t<primitive: 14>!

/ x
\t<primitive: 15>!

< x
\t<primitive: 16>!

bitAnd: x
\t<primitive: 18>!

bitOr: x
\t<primitive: 19>!

bitShift: x
\t<primitive: 20>!

printString
\t<primitive: 21>!

asCharacter
\t<primitive: 22>!

asInteger
\t^self!

isInteger
\t^true!

negated
\t^0 - self!

abs
\t^self < 0 ifTrue: [0 - self] ifFalse: [self]!

even
\t^self \\\\ 2 = 0!

odd
\t^self \\\\ 2 = 1!

timesRepeat: b
\t| i |
\ti := 1.
\t[i <= self] whileTrue: [
\t\tb value.
\t\ti := i + 1]!

to: n do: b
\t| i |
\ti := self.
\t[i <= n] whileTrue: [
\t\tb value: i.
\t\ti := i + 1]! !

!Collection methodsFor: 'kernel'!
do: b
\t^self subclassResponsibility!

isEmpty
\t^self size = 0!

notEmpty
\t^self isEmpty not!

includes: x
\tself do: [:e | e = x ifTrue: [^true]].
\t^false!

inject: v into: b
\t| a |
\ta := v.
\tself do: [:e | a := b value: a value: e].
\t^a!

detect: b ifNone: n
\tself do: [:e | (b value: e) ifTrue: [^e]].
\t^n value!

select: b
\t| r |
\tr := OrderedCollection new.
\tself do: [:e | (b value: e) ifTrue: [r add: e]].
\t^r!

collect: b
\t| r |
\tr := OrderedCollection new.
\tself do: [:e | r add: (b value: e)].
\t^r! !

!ArrayedCollection methodsFor: 'kernel'!
size
\t<primitive: 30>!

at: i
\t<primitive: 31>!

, x
\t<primitive: 33>!

copyFrom: a to: b
\t<primitive: 34>!

do: b
\t1 to: self size do: [:i | b value: (self at: i)]!

indexOf: x
\t1 to: self size do: [:i | (self at: i) = x ifTrue: [^i]].
\t^0!

first
\t^self at: 1!

last
\t^self at: self size! !

!String methodsFor: 'kernel'!
< x
\t<primitive: 35>!

isString
\t^true!

asSymbol
\t<primitive: 36>!

asString
\t^self!

printString
\t<primitive: 37>!

displayString
\t^self! !

!Symbol methodsFor: 'kernel'!
asSymbol
\t^self!

asString
\t<primitive: 38>!

printString
\t<primitive: 39>!

displayString
\t^self asString! !

!Array methodsFor: 'kernel'!
at: i put: x
\t<primitive: 32>!

= x
\t^(x isKindOf: Array) and: [self size = x size and: [self equalItems: x]]!

equalItems: x
\t1 to: self size do: [:i | (self at: i) = (x at: i) ifFalse: [^false]].
\t^true! !

!Array class methodsFor: 'kernel'!
new: n
\t<primitive: 40>!

with: a
\t^(self new: 1) at: 1 put: a; yourself!

with: a with: b
\t^(self new: 2) at: 1 put: a; at: 2 put: b; yourself! !

!OrderedCollection methodsFor: 'kernel'!
setUp
\tarray := Array new: 4.
\ttally := 0!

size
\t^tally!

add: x
\ttally = array size ifTrue: [array := array , (Array new: tally)].
\ttally := tally + 1.
\t^array at: tally put: x!

at: i
\t(i between: 1 and: tally) ifFalse: [self error: 'no such index'].
\t^array at: i!

do: b
\t1 to: tally do: [:i | b value: (array at: i)]!

first
\t^self at: 1!

last
\t^self at: tally!

removeLast
\t| x |
\tx := self last.
\tarray at: tally put: nil.
\ttally := tally - 1.
\t^x!

asArray
\t^array copyFrom: 1 to: tally! !

!OrderedCollection class methodsFor: 'kernel'!
new
\t^super new setUp! !

!Association methodsFor: 'kernel'!
setKey: k value: v
\tkey := k.
\tvalue := v!

key
\t^key!

value
\t^value!

value: v
\tvalue := v! !

!Association class methodsFor: 'kernel'!
key: k value: v
\t^self new setKey: k value: v! !

!Dictionary methodsFor: 'kernel'!
setUp
\tpairs := OrderedCollection new!

size
\t^pairs size!

at: k put: v
\tpairs do: [:p |
\t\tp key = k ifTrue: [
\t\t\tp value: v.
\t\t\t^v]].
\tpairs add: k -> v.
\t^v!

at: k ifAbsent: b
\tpairs do: [:p | p key = k ifTrue: [^p value]].
\t^b value!

at: k
\t^self at: k ifAbsent: [self error: 'no such key']!

do: b
\tpairs do: [:p | b value: p value]!

keysDo: b
\tpairs do: [:p | b value: p key]! !

!Dictionary class methodsFor: 'kernel'!
new
\t^super new setUp! !

!Block methodsFor: 'kernel'!
value
\t<primitive: 50>!

value: a
\t<primitive: 51>!

value: a value: b
\t<primitive: 52>!

value: a value: b value: c
\t<primitive: 53>!

numArgs
\t<primitive: 54>!

whileTrue: b
\t[self value] whileTrue: [b value].
\t^nil!

whileFalse: b
\t[self value] whileFalse: [b value].
\t^nil! !

!Class methodsFor: 'kernel'!
class
\t<primitive: 6>!

new
\t<primitive: 7>!

basicNew
\t<primitive: 7>!

printString
\t^'a class'! !

!TextCollector methodsFor: 'kernel'!
show: t
\t<primitive: 60>!

print: x
\t<primitive: 61>!

cr
\t^self show: '
'!

tab
\t^self show: '\t'!

space
\t^self show: ' '!

display: x
\t^self show: x displayString! !

";

/// The text of the kernel classes, which stand before the classes of any file.
pub fn prelude() -> &'static [u8]
    ensures { result.now ≡ prelude_text }
{
    PRELUDE
}
