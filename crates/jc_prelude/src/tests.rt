//! That the texts have the members that a program may use.
use crate::sources;

// The head of each type, and its members.
const MEMBERS: &str = "\
public class Object |public boolean equals(Object other)\n\
public class Object |public native int hashCode();\n\
public class Object |public String toString()\n\
public final class String implements |public String(char[] value)\n\
public final class String implements |public int length()\n\
public final class String implements |public char charAt(int index)\n\
public final class String implements |public boolean equals(Object other)\n\
public final class String implements |public int hashCode()\n\
public final class String implements |public String toString()\n\
public final class String implements |public int compareTo(String other)\n\
public final class String implements |public String concat(String text)\n\
public final class String implements |public String substring(int begin)\n\
public final class String implements |public String substring(int begin, int end)\n\
public final class String implements |public int indexOf(int character)\n\
public final class String implements |public int indexOf(String text)\n\
public final class String implements |public boolean startsWith(String prefix)\n\
public final class String implements |public boolean endsWith(String suffix)\n\
public final class String implements |public boolean isEmpty()\n\
public final class String implements |public char[] toCharArray()\n\
public final class String implements |public static String valueOf(Object object)\n\
public final class String implements |public static String valueOf(char character)\n\
public final class String implements |public static String valueOf(int number)\n\
public final class String implements |public static String valueOf(long number)\n\
public final class String implements |public static String valueOf(boolean truth)\n\
public final class StringBuilder |public StringBuilder()\n\
public final class StringBuilder |public StringBuilder(String text)\n\
public final class StringBuilder |public StringBuilder append(Object object)\n\
public final class StringBuilder |public StringBuilder append(char character)\n\
public final class StringBuilder |public StringBuilder append(int number)\n\
public final class StringBuilder |public StringBuilder append(long number)\n\
public final class StringBuilder |public StringBuilder append(boolean truth)\n\
public final class StringBuilder |public StringBuilder append(String text)\n\
public final class StringBuilder |public int length()\n\
public final class StringBuilder |public char charAt(int index)\n\
public final class StringBuilder |public String toString()\n\
public abstract class Number |public byte byteValue()\n\
public abstract class Number |public short shortValue()\n\
public abstract class Number |public abstract int intValue();\n\
public abstract class Number |public abstract long longValue();\n\
public final class Byte extends Number implements Comparable<Byte> |public static final byte MIN_VALUE =\n\
public final class Byte extends Number implements Comparable<Byte> |public static final byte MAX_VALUE =\n\
public final class Byte extends Number implements Comparable<Byte> |public static Byte valueOf(byte value)\n\
public final class Byte extends Number implements Comparable<Byte> |public byte byteValue()\n\
public final class Byte extends Number implements Comparable<Byte> |public int intValue()\n\
public final class Byte extends Number implements Comparable<Byte> |public long longValue()\n\
public final class Byte extends Number implements Comparable<Byte> |public boolean equals(Object other)\n\
public final class Byte extends Number implements Comparable<Byte> |public int hashCode()\n\
public final class Byte extends Number implements Comparable<Byte> |public String toString()\n\
public final class Byte extends Number implements Comparable<Byte> |public int compareTo(Byte other)\n\
public final class Short extends Number implements Comparable<Short> |public static final short MIN_VALUE =\n\
public final class Short extends Number implements Comparable<Short> |public static final short MAX_VALUE =\n\
public final class Short extends Number implements Comparable<Short> |public static Short valueOf(short value)\n\
public final class Short extends Number implements Comparable<Short> |public short shortValue()\n\
public final class Short extends Number implements Comparable<Short> |public int intValue()\n\
public final class Short extends Number implements Comparable<Short> |public long longValue()\n\
public final class Short extends Number implements Comparable<Short> |public boolean equals(Object other)\n\
public final class Short extends Number implements Comparable<Short> |public int hashCode()\n\
public final class Short extends Number implements Comparable<Short> |public String toString()\n\
public final class Short extends Number implements Comparable<Short> |public int compareTo(Short other)\n\
public final class Integer extends Number implements Comparable<Integer> |public static final int MIN_VALUE =\n\
public final class Integer extends Number implements Comparable<Integer> |public static final int MAX_VALUE =\n\
public final class Integer extends Number implements Comparable<Integer> |public static Integer valueOf(int value)\n\
public final class Integer extends Number implements Comparable<Integer> |public int intValue()\n\
public final class Integer extends Number implements Comparable<Integer> |public long longValue()\n\
public final class Integer extends Number implements Comparable<Integer> |public boolean equals(Object other)\n\
public final class Integer extends Number implements Comparable<Integer> |public int hashCode()\n\
public final class Integer extends Number implements Comparable<Integer> |public String toString()\n\
public final class Integer extends Number implements Comparable<Integer> |public int compareTo(Integer other)\n\
public final class Long extends Number implements Comparable<Long> |public static final long MIN_VALUE =\n\
public final class Long extends Number implements Comparable<Long> |public static final long MAX_VALUE =\n\
public final class Long extends Number implements Comparable<Long> |public static Long valueOf(long value)\n\
public final class Long extends Number implements Comparable<Long> |public int intValue()\n\
public final class Long extends Number implements Comparable<Long> |public long longValue()\n\
public final class Long extends Number implements Comparable<Long> |public boolean equals(Object other)\n\
public final class Long extends Number implements Comparable<Long> |public int hashCode()\n\
public final class Long extends Number implements Comparable<Long> |public String toString()\n\
public final class Long extends Number implements Comparable<Long> |public int compareTo(Long other)\n\
public final class Character implements Comparable<Character> |public static Character valueOf(char value)\n\
public final class Character implements Comparable<Character> |public char charValue()\n\
public final class Character implements Comparable<Character> |public boolean equals(Object other)\n\
public final class Character implements Comparable<Character> |public int hashCode()\n\
public final class Character implements Comparable<Character> |public String toString()\n\
public final class Character implements Comparable<Character> |public int compareTo(Character other)\n\
public final class Boolean implements Comparable<Boolean> |public static Boolean valueOf(boolean value)\n\
public final class Boolean implements Comparable<Boolean> |public boolean booleanValue()\n\
public final class Boolean implements Comparable<Boolean> |public boolean equals(Object other)\n\
public final class Boolean implements Comparable<Boolean> |public int hashCode()\n\
public final class Boolean implements Comparable<Boolean> |public String toString()\n\
public final class Boolean implements Comparable<Boolean> |public int compareTo(Boolean other)\n\
public final class Integer extends Number implements Comparable<Integer> |public static int parseInt(String text)\n\
public final class Long extends Number implements Comparable<Long> |public static long parseLong(String text)\n\
public final class Math |public static int abs(int number)\n\
public final class Math |public static int max(int first, int second)\n\
public final class Math |public static int min(int first, int second)\n\
public final class Math |public static long abs(long number)\n\
public final class Math |public static long max(long first, long second)\n\
public final class Math |public static long min(long first, long second)\n\
public interface Comparable<T> |int compareTo(T other);\n\
public interface Iterable<T> |Iterator<T> iterator();\n\
public final class System |public static final InputStream in =\n\
public final class System |public static final PrintStream out =\n\
public final class System |public static void exit(int status)\n\
public class Throwable |public Throwable()\n\
public class Throwable |public Throwable(String message)\n\
public class Throwable |public String getMessage()\n\
public class Throwable |public String toString()\n\
public class Exception extends Throwable |public Exception()\n\
public class Exception extends Throwable |public Exception(String message)\n\
public class RuntimeException extends Exception |public RuntimeException()\n\
public class RuntimeException extends Exception |public RuntimeException(String message)\n\
public class Error extends Throwable |public Error()\n\
public class Error extends Throwable |public Error(String message)\n\
public class LinkageError extends Error |public LinkageError()\n\
public class LinkageError extends Error |public LinkageError(String message)\n\
public class ExceptionInInitializerError extends LinkageError |public ExceptionInInitializerError()\n\
public class ExceptionInInitializerError extends LinkageError |public ExceptionInInitializerError(String message)\n\
public class NoClassDefFoundError extends LinkageError |public NoClassDefFoundError()\n\
public class NoClassDefFoundError extends LinkageError |public NoClassDefFoundError(String message)\n\
public class ArithmeticException extends RuntimeException |public ArithmeticException()\n\
public class ArithmeticException extends RuntimeException |public ArithmeticException(String message)\n\
public class ArrayStoreException extends RuntimeException |public ArrayStoreException()\n\
public class ArrayStoreException extends RuntimeException |public ArrayStoreException(String message)\n\
public class ClassCastException extends RuntimeException |public ClassCastException()\n\
public class ClassCastException extends RuntimeException |public ClassCastException(String message)\n\
public class NegativeArraySizeException extends RuntimeException |public NegativeArraySizeException()\n\
public class NegativeArraySizeException extends RuntimeException |public NegativeArraySizeException(String message)\n\
public class NullPointerException extends RuntimeException |public NullPointerException()\n\
public class NullPointerException extends RuntimeException |public NullPointerException(String message)\n\
public class IndexOutOfBoundsException extends RuntimeException |public IndexOutOfBoundsException()\n\
public class IndexOutOfBoundsException extends RuntimeException |public IndexOutOfBoundsException(String message)\n\
public class ArrayIndexOutOfBoundsException extends IndexOutOfBoundsException |public ArrayIndexOutOfBoundsException()\n\
public class ArrayIndexOutOfBoundsException extends IndexOutOfBoundsException |public ArrayIndexOutOfBoundsException(String message)\n\
public class StringIndexOutOfBoundsException extends IndexOutOfBoundsException |public StringIndexOutOfBoundsException()\n\
public class StringIndexOutOfBoundsException extends IndexOutOfBoundsException |public StringIndexOutOfBoundsException(String message)\n\
public class IllegalArgumentException extends RuntimeException |public IllegalArgumentException()\n\
public class IllegalArgumentException extends RuntimeException |public IllegalArgumentException(String message)\n\
public class NumberFormatException extends IllegalArgumentException |public NumberFormatException()\n\
public class NumberFormatException extends IllegalArgumentException |public NumberFormatException(String message)\n\
public class IllegalStateException extends RuntimeException |public IllegalStateException()\n\
public class IllegalStateException extends RuntimeException |public IllegalStateException(String message)\n\
public class UnsupportedOperationException extends RuntimeException |public UnsupportedOperationException()\n\
public class UnsupportedOperationException extends RuntimeException |public UnsupportedOperationException(String message)\n\
public class IOException extends Exception |public IOException()\n\
public class IOException extends Exception |public IOException(String message)\n\
public class NoSuchElementException extends RuntimeException |public NoSuchElementException()\n\
public class NoSuchElementException extends RuntimeException |public NoSuchElementException(String message)\n\
public abstract class InputStream |public abstract int read() throws IOException;\n\
public class PrintStream |public void write(int value)\n\
public class PrintStream |public void println()\n\
public class PrintStream |public void print(Object object)\n\
public class PrintStream |public void print(String text)\n\
public class PrintStream |public void print(char character)\n\
public class PrintStream |public void print(int number)\n\
public class PrintStream |public void print(long number)\n\
public class PrintStream |public void print(boolean truth)\n\
public class PrintStream |public void println(Object object)\n\
public class PrintStream |public void println(String text)\n\
public class PrintStream |public void println(char character)\n\
public class PrintStream |public void println(int number)\n\
public class PrintStream |public void println(long number)\n\
public class PrintStream |public void println(boolean truth)\n\
public interface Iterator<E> |boolean hasNext();\n\
public interface Iterator<E> |E next();\n\
public interface Iterator<E> |void remove();\n\
public interface Collection<E> extends Iterable<E> |boolean add(E element);\n\
public interface Collection<E> extends Iterable<E> |boolean addAll(Collection<? extends E> elements);\n\
public interface Collection<E> extends Iterable<E> |boolean remove(Object element);\n\
public interface Collection<E> extends Iterable<E> |boolean contains(Object element);\n\
public interface Collection<E> extends Iterable<E> |int size();\n\
public interface Collection<E> extends Iterable<E> |boolean isEmpty();\n\
public interface Collection<E> extends Iterable<E> |void clear();\n\
public interface Collection<E> extends Iterable<E> |Iterator<E> iterator();\n\
public interface List<E> extends Collection<E> |E get(int index);\n\
public interface List<E> extends Collection<E> |E set(int index, E element);\n\
public interface List<E> extends Collection<E> |E remove(int index);\n\
public interface List<E> extends Collection<E> |int indexOf(Object element);\n\
public interface Map<K, V> |V get(Object key);\n\
public interface Map<K, V> |V put(K key, V value);\n\
public interface Map<K, V> |V remove(Object key);\n\
public interface Map<K, V> |boolean containsKey(Object key);\n\
public interface Map<K, V> |int size();\n\
public interface Map<K, V> |boolean isEmpty();\n\
public interface Map<K, V> |void clear();\n\
public interface Map<K, V> |Set<K> keySet();\n\
public interface Map<K, V> |Set<Map.Entry<K, V>> entrySet();\n\
public interface Map<K, V> |public interface Entry<K, V>\n\
public interface Comparator<T> |int compare(T first, T second);\n\
public class ArrayList<E> implements List<E> |public ArrayList()\n\
public class ArrayList<E> implements List<E> |public boolean add(E element)\n\
public class ArrayList<E> implements List<E> |public boolean addAll(Collection<? extends E> elements)\n\
public class ArrayList<E> implements List<E> |public boolean remove(Object element)\n\
public class ArrayList<E> implements List<E> |public boolean contains(Object element)\n\
public class ArrayList<E> implements List<E> |public int size()\n\
public class ArrayList<E> implements List<E> |public boolean isEmpty()\n\
public class ArrayList<E> implements List<E> |public void clear()\n\
public class ArrayList<E> implements List<E> |public Iterator<E> iterator()\n\
public class ArrayList<E> implements List<E> |public E get(int index)\n\
public class ArrayList<E> implements List<E> |public E set(int index, E element)\n\
public class ArrayList<E> implements List<E> |public E remove(int index)\n\
public class ArrayList<E> implements List<E> |public int indexOf(Object element)\n\
public class HashSet<E> implements Set<E> |public HashSet()\n\
public class HashSet<E> implements Set<E> |public boolean add(E element)\n\
public class HashSet<E> implements Set<E> |public boolean addAll(Collection<? extends E> elements)\n\
public class HashSet<E> implements Set<E> |public boolean remove(Object element)\n\
public class HashSet<E> implements Set<E> |public boolean contains(Object element)\n\
public class HashSet<E> implements Set<E> |public int size()\n\
public class HashSet<E> implements Set<E> |public boolean isEmpty()\n\
public class HashSet<E> implements Set<E> |public void clear()\n\
public class HashSet<E> implements Set<E> |public Iterator<E> iterator()\n\
public class HashMap<K, V> implements Map<K, V> |public HashMap()\n\
public class HashMap<K, V> implements Map<K, V> |public V get(Object key)\n\
public class HashMap<K, V> implements Map<K, V> |public V put(K key, V value)\n\
public class HashMap<K, V> implements Map<K, V> |public V remove(Object key)\n\
public class HashMap<K, V> implements Map<K, V> |public boolean containsKey(Object key)\n\
public class HashMap<K, V> implements Map<K, V> |public int size()\n\
public class HashMap<K, V> implements Map<K, V> |public boolean isEmpty()\n\
public class HashMap<K, V> implements Map<K, V> |public void clear()\n\
public class HashMap<K, V> implements Map<K, V> |public Set<K> keySet()\n\
public class HashMap<K, V> implements Map<K, V> |public Set<Map.Entry<K, V>> entrySet()\n\
";

// Whether the body of the type with this head has this member.
fn is_member(text: &str, head: &str, member: &str) -> bool {
    match text.split_once(head) {
        Some((_, rest)) => match rest.split_once("\n}\n") {
            Some((body, _)) => body.contains(member),
            None => false,
        },
        None => false,
    }
}

fn is_there(head: &str, member: &str) -> bool {
    for text in sources() {
        if is_member(text, head, member) {
            return true;
        }
    }
    false
}

#[test]
fn the_texts_have_their_members(rt: HostRuntime) {
    let mut count = 0u32;
    for line in MEMBERS.lines() {
        if let Some((head, member)) = line.split_once(" |") {
            assert!(rt; is_there(head, member), "{line}");
            count = count.saturating_add(1);
        }
    }
    assert_eq!(rt; count, 219);
}

#[test]
fn object_comes_first(rt: HostRuntime) {
    let first = sources().first().copied().unwrap_or("");
    assert!(rt; first.starts_with("package java.lang;\n"));
    let (before, _) = first.split_once("class Object {").unwrap_or(("class", ""));
    assert!(rt; !before.contains("class ") && !before.contains("interface "));
}
